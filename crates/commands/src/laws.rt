//! What holds of the commands. The functions do nothing: their clauses are the laws.

ghost use Rattle.commands.specs.Laws.{DocumentsHaveOutcomes, OwedIsOne, OwedIsSome, PreparedIsOne, TaskIsOne};
ghost use Rattle.commands.specs.Laws.{TellingIsOne, ReportsAreOfDocuments, ReportsAreOfSamples};
ghost use Rattle.commands.specs.{Laws.{ReportsAreOfTurns}, Examples.{SmallAnswers}};
ghost use Rattle.commands.specs.{ExplainExamples.{SmallExplanations}, ElectExamples.{SmallElections}};
ghost use Rattle.commands.specs.{ReportLaws.{GoodIsFew, GoodStaysConnected}, WorkExamples.{SmallCommands}};

use crate::run::run_report_is_one;
use crate::sample::sample_text_is_one;
use action_meaning::{changes_are_acts, program_runs_stay_connected};
use amoebot_state::{Entry, PlainEntry};
use claim_core::{
    one_list_is_serial, reached_is_good, rounds_leave_a_report, ticket_reached_is_good,
    ticket_reached_is_reached, tickets_leave_a_report,
};
use document_answers::{interleave_report_is_one, measure_text_is_one, replay_is_decided};
use election_law::{election_laws, start_laws};
use model_ops::acts_decide;
use rewind_log::{unwound_is_some, unwound_is_unique};
use round_meter::{each_run_is_rounded, rounds_are_unique};
use run_sample::{sample_is_fit, sample_is_some, sample_is_unique};
use serial_model::plain_run_is_unique;
use shape_checks::{hexagon_laws, measures_are_decided};
use shape_files::{documents_are_sound, documents_fit, least_versions_are_kept};

/// For a command and what the input came to, at most one status is owed.
/// At most one report is owed, except for `run` and `tickets` of two
/// lists or more and for `sample`.
/// At most one text is owed, except for `run` and `tickets` of two lists or more.
pub fn owed_is_one()
    ensures { OwedIsOne }
{
    least_versions_are_kept();
    run_report_is_one();
    ticket_reached_is_reached();
    interleave_report_is_one();
    replay_is_decided::<Entry>();
    replay_is_decided::<PlainEntry>();
    plain_run_is_unique();
    documents_fit();
    measure_text_is_one();
    good_stays_connected();
    sample_is_fit();
    changes_are_acts();
    acts_decide();
    unwound_is_unique();
    rounds_are_unique();
}

/// For a command and what the input came to, a status, a report or none, and a text are owed.
pub fn owed_is_some()
    ensures { OwedIsSome }
{
    least_versions_are_kept();
    documents_fit();
    documents_are_sound();
    rounds_leave_a_report();
    reached_is_good();
    tickets_leave_a_report();
    ticket_reached_is_good();
    one_list_is_serial();
    replay_is_decided::<Entry>();
    replay_is_decided::<PlainEntry>();
    measures_are_decided();
    good_stays_connected();
    sample_is_fit();
    sample_is_some();
    changes_are_acts();
    acts_decide();
    unwound_is_some();
    each_run_is_rounded();
    election_laws();
    start_laws();
}

/// For a whole input of a command at most one task is to be done.
/// It is one answer, apart from the room in its report's journal, or one run.
pub fn task_is_one()
    ensures { TaskIsOne }
{
    least_versions_are_kept();
    owed_is_one();
}

/// For a command and what was read at most one run is prepared, and a report gets at most one text.
pub fn prepared_is_one()
    ensures run { PreparedIsOne }
    ensures text { TellingIsOne }
{
    least_versions_are_kept();
    sample_is_unique();
    sample_text_is_one();
}

/// What is owed for a document of the command is an outcome of it.
/// It is done; or the journal differs; or `rewind` or `elect` refuses it.
pub fn documents_have_outcomes()
    ensures { DocumentsHaveOutcomes }
{
    least_versions_are_kept();
}

/// A report is owed exactly where `run`, `interleave`, `tickets` or `sample` is done.
/// Then it is a good one of the turns of a document's lists under its program, from its shape on,
/// or of those of a sample: the headline.
pub fn reports_are_of_runs()
    ensures exactly { ReportsAreOfTurns }
    ensures document { ReportsAreOfDocuments }
    ensures sample { ReportsAreOfSamples }
{
    good_stays_connected();
    ticket_reached_is_reached();
    one_list_is_serial();
    sample_is_fit();
}

/// For each status that an input can owe, a call that owes it; and a task of each kind.
pub fn small_answers()
    ensures { SmallAnswers }
{
    reached_is_good();
    one_list_is_serial();
}

/// For journals with old values, and for `rewind`, `rounds` and `elect`, calls and what they owe.
pub fn small_explanations()
    ensures { SmallExplanations }
{
    reached_is_good();
}

/// For `elect` of the program `erosion`, calls and what they owe.
/// Also a start that is ready, and a world that is elected.
pub fn small_elections()
    ensures { SmallElections }
{}

/// A good report's journal has at most one entry for each turn,
/// and each is of an amoebot that is there.
pub fn good_is_few()
    ensures { GoodIsFew }
{}

/// With the guard on and a connected shape at the start,
/// the shape is connected in each world of a good report's run.
pub fn good_stays_connected()
    ensures { GoodStaysConnected }
{
    program_runs_stay_connected();
}

/// Reports of the commands on a small shape, of one list and of two,
/// journals that agree and differ, and texts of measures and of a sample.
pub fn small_commands()
    ensures { SmallCommands }
{
    reached_is_good();
    one_list_is_serial();
    hexagon_laws();
}
