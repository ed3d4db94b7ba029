//! The command `sample`: workers are to run the lists of a number's sample.

ghost use Rattle.std.specs.{Prelude.{IfOk, Some, ◌≡◌, length, ◌<◌, Decides}, List.{All}};
ghost use Rattle.commands.specs.declared.words.Command.TheVariants.{Sample};
ghost use Rattle.commands.specs.{Tasks.{IsPrepared, IsCounted, TellsReport}, Reads.{nothing}};
ghost use Rattle.commands.specs.{Sample.{IsSampleText, sample_text}, ReportLaws.{SampleTextIsOne}};
ghost use Rattle.document_answers.specs.Journals.{Agrees};
ghost use Rattle.claim_core.specs.Good.{Good};
ghost use Rattle.action_meaning.specs.Verdicts.{verdict_shown};
ghost use Rattle.serial_model.specs.Replays.{AreCountable};

use crate::laws::good_is_few;
use crate::prepared::{Maker, Prepared, Telling};
use action_eval::Runner;
use amoebot_state::{Decider, Entry, NoMemory};
use claim_core::{Lists, Report};
use document_answers::{Answer, Status, compare, put_answer, put_number, replay_is_decided};
use run_sample::{make_sample, sample_is_fit};
use shape_checks::is_connected;
use std::alloc::Global;
use text_tokens::{Lines, Text};

/// The run of a number's sample is prepared; it gets the six lines. Nothing is read.
pub fn prepare_sample(alloc: Global, seed: u32) -> Result<Prepared, NoMemory>
    ensures { IfOk result (IsPrepared (Some (Sample seed)) nothing) }
{
    sample_is_fit();
    good_is_few();
    let sample = make_sample(alloc, seed)?;
    Ok(Prepared {
        runner: Runner::new(sample.checked),
        world: sample.world,
        lists: sample.lists,
        telling: Telling::Sample(seed),
        maker: Maker::Workers,
    })
}

/// The answer that tells a report as that of a number's sample.
pub(crate) fn tell_sample(
    alloc: Global,
    seed: u32,
    runner: &Runner,
    lists: &Lists,
    report: Report,
) -> Result<Answer, NoMemory>
    requires good { Good (verdict_shown runner.now) report.journal.first lists.now report }
    requires few { IsCounted (Telling.Sample seed) report }
    ensures { IfOk result (TellsReport (Telling.Sample seed) runner.now lists.now report) }
{
    good_is_few();
    let text = print_sample(alloc, seed, runner, lists, &report)?;
    Ok(Answer {
        status: Status::Done,
        report: Some(report),
        text,
    })
}

/// The text of a report of the lists' turns, under the number from which they were made:
/// how many amoebots, callers and turns there are, whether the last world is connected,
/// and whether the journal, replayed from the first world, leads to the last one.
pub fn print_sample<D: Decider>(
    alloc: Global,
    seed: u32,
    decider: &D,
    lists: &Lists,
    report: &Report,
) -> Result<Text, NoMemory>
    requires there { All (λ e. e.bot < length report.now.journal.first.bots) report.now.journal.entries }
    requires few { AreCountable report.now.journal.entries }
    ensures { IfOk result (
        IsSampleText (D.verdict decider.now) report.now.journal.first lists.now seed report.now) }
{
    let callers = lists.callers();
    let connected = is_connected(alloc, &report.world)?;
    let agrees = agrees(alloc, decider, report)?;
    print_told(
        alloc,
        &Told {
            seed,
            bots: report.journal.first().bots(),
            callers,
            turns: lists.all_turns(),
            connected,
            agrees,
        },
    )
}

/// Whether the journal, replayed from the first world, leads to the last one.
fn agrees<D: Decider>(alloc: Global, decider: &D, report: &Report) -> Result<bool, NoMemory>
    requires there { All (λ e. e.bot < length report.now.journal.first.bots) report.now.journal.entries }
    requires few { AreCountable report.now.journal.entries }
    ensures { IfOk result (λ agrees. Decides agrees
        (Agrees (D.verdict decider.now) report.now.journal.first
        report.now.journal.entries report.now.world)) }
{
    replay_is_decided::<Entry>();
    let first = report.journal.first().copy(alloc)?;
    match compare(decider, first, report.journal.entries(), &report.world) {
        Ok(()) => Ok(true),
        Err(_) => Ok(false),
    }
}

/// What the six lines say of a sample.
#[derive(Clone, Copy)]
struct Told {
    seed: u32,
    bots: u16,
    callers: u8,
    turns: u32,
    connected: bool,
    agrees: bool,
}

/// A line for each.
fn print_told(alloc: Global, told: &Told) -> Result<Text, NoMemory>
    ensures { IfOk result (λ text. text
        ≡ sample_text told.now.seed told.now.bots told.now.callers
        told.now.turns told.now.connected told.now.agrees) }
{
    let mut lines = Lines::new(alloc);
    put_number(&mut lines, "sample", told.seed)?;
    put_number(&mut lines, "bots", told.bots)?;
    put_number(&mut lines, "callers", told.callers)?;
    put_number(&mut lines, "turns", told.turns)?;
    put_answer(&mut lines, "connected", told.connected)?;
    put_answer(&mut lines, "replay", told.agrees)?;
    Ok(lines.text())
}

/// A report of a sample has one text.
pub fn sample_text_is_one()
    ensures { SampleTextIsOne }
{}
