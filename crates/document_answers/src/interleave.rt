//! The command `interleave`: the steps of a document's schedule are made.

ghost use Rattle.std.specs.{Prelude.{IfOk, ◌≡◌, ◌<◌, length, reverse}, List.{All}};
ghost use Rattle.shape_files.specs.{Fitting.{Fits}, Views.{contents}};
ghost use Rattle.document_answers.specs.Interleave.{IsInterleaveReport, InterleaveOutcome};
ghost use Rattle.document_answers.specs.AnswerLaws.{InterleaveReportIsOne, ScheduleHasOneReport};
ghost use Rattle.document_answers.specs.Answers.{IsAnswerOf};
ghost use Rattle.claim_core.specs.{Turns.{HaveBots}, Machine.{after}, Cores.{opening_core, setup_of}};

use crate::answer::Answer;
use crate::report::answer_report;
use action_eval::Runner;
use amoebot_state::{Decider, NoMemory, World};
use claim_core::{Core, Lists, Report, state_has_one_report};
use schedule_text::Schedule;
use shape_files::{Form, Parts};
use std::alloc::Global;

/// The steps of the schedule are made, and then rounds, and the text of the report is made.
pub fn answer_interleave(alloc: Global, parts: Parts) -> Result<Answer, NoMemory>
    requires { Fits Form.Interleave (contents parts) }
    ensures { IfOk result (IsAnswerOf (InterleaveOutcome (contents parts))) }
{
    let Parts {
        version,
        checked,
        world,
        lists,
        schedule,
        ..
    } = parts;
    let checked = checked.unwrap();
    let lists = lists.unwrap();
    let schedule = schedule.unwrap();
    let vars = checked.vars();
    let runner = Runner::new(checked);
    let report = run_interleaved(alloc, &runner, world.unwrap(), &lists, &schedule)?;
    answer_report(alloc, version, report, vars)
}

/// Makes one step of each caller of the schedule in turn,
/// and then rounds of one step for each caller in rising number, until all have ended.
///
/// All memory is taken before the first step.
pub fn run_interleaved<D: Decider>(
    alloc: Global,
    decider: &D,
    world: World,
    lists: &Lists,
    schedule: &Schedule,
) -> Result<Report, NoMemory>
    requires bots { HaveBots (length world.bots) lists.now }
    requires callers { All (λ caller. caller < length lists.now.ids) schedule.now }
    ensures { IfOk result (λ report.
        IsInterleaveReport (D.verdict decider.now) world lists.now schedule.now report) }
{
    world.keeps();
    let mut core = Core::make(alloc, decider, world, lists)?;
    step_all(&mut core, schedule);
    core.finish();
    Ok(core.report())
}

/// One step of each of the callers, one after another.
fn step_all<D: Decider>(core: &mut Core<'_, D>, schedule: &Schedule)
    requires callers { All (λ caller. caller < length core.old.state.callers) schedule.now }
    requires opening { core.old ≡ opening_core D.verdict core.old.decider core.old.first core.old.lists }
    ensures { core.new
        ≡ record core.old { state = after (setup_of D.verdict core.old) (reverse schedule.now) } }
{
    for number in 0..schedule.steps() {
        core.step(schedule.step(number));
    }
}

/// A schedule gives at most one report, and one text of it.
pub fn interleave_report_is_one()
    ensures report { ScheduleHasOneReport }
    ensures text { InterleaveReportIsOne }
{
    state_has_one_report();
}
