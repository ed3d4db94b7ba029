//! The command `rounds`: the asynchronous rounds of a document's journal are counted.

ghost use Rattle.std.specs.{Prelude.{◌<◌, length, IfOk, MatchResult, ◌≡◌}, List.{All}};
ghost use Rattle.serial_model.specs.Replays.{AreCountable};
ghost use Rattle.shape_files.specs.{Fitting.{Fits}, Views.{contents}};
ghost use Rattle.document_answers.specs.Journals.{DiffersAt, EntriesOutcome};
ghost use Rattle.document_answers.specs.Rounds.{CountedIn, rounds_text, RoundsOutcome, IsRoundsText};
ghost use Rattle.document_answers.specs.{AnswerLaws.{RoundsAreDecided}, Answers.{IsAnswerOf}};
ghost use Rattle.action_meaning.specs.Verdicts.{verdict_shown};

use crate::answer::{Answer, differ, done};
use crate::lines::put_number;
use crate::recorded::{Journal, recorded_in};
use action_eval::Runner;
use amoebot_state::{Decider, NoMemory, World};
use round_meter::{Meter, each_run_is_rounded, meter_tells_rounds, rounds_are_unique};
use serial_model::{Differs, EntryForm, plain_run_is_unique};
use shape_files::{Form, Parts};
use std::alloc::Global;
use text_tokens::{Lines, Text};

/// The journal is compared as for `replay`. Where it agrees its rounds are counted.
pub fn answer_rounds(alloc: Global, parts: Parts) -> Result<Answer, NoMemory>
    requires { Fits Form.Replay (contents parts) }
    ensures { IfOk result (IsAnswerOf (RoundsOutcome (contents parts))) }
{
    let (runner, start, last, journal) = recorded_in(parts);
    match journal {
        Journal::Full(full) => tell_count(alloc, &runner, start, full.entries(), &last),
        Journal::Plain(plain) => tell_count(alloc, &runner, start, plain.entries(), &last),
    }
}

/// The answer to entries in a form, whose amoebots are the start's.
fn tell_count<E: EntryForm>(
    alloc: Global,
    runner: &Runner,
    start: World,
    entries: &[E],
    last: &World,
) -> Result<Answer, NoMemory>
    requires there { All (λ e. E.bot e < length start.bots) entries.now }
    requires few { AreCountable entries.now }
    ensures { IfOk result (
        IsAnswerOf (EntriesOutcome E.form (verdict_shown runner.now) start entries.now last.now
        (IsRoundsText (verdict_shown runner.now) start))) }
{
    match count_rounds(alloc, runner, start, entries, last)? {
        Ok(count) => {
            let text = print_rounds(alloc, count.rounds, count.waiting)?;
            Ok(done(text))
        }
        Err(differs) => differ(alloc, differs.place),
    }
}

/// The asynchronous rounds of a run.
#[derive(Clone, Copy, Debug, PartialEq, Eq, Drop)]
pub struct RoundCount {
    /// How many have ended.
    pub rounds: u32,
    /// How many amoebots are not settled in the last one that was started.
    pub waiting: u32,
}

/// The rounds of the entries in a form, whose amoebots are the world's,
/// if they are those of a run of the model from the start to the last world.
/// If they are none, they differ where `compare` says so.
pub fn count_rounds<D: Decider, E: EntryForm>(
    alloc: Global,
    decider: &D,
    start: World,
    entries: &[E],
    last: &World,
) -> Result<Result<RoundCount, Differs>, NoMemory>
    requires there { All (λ e. E.bot e < length start.bots) entries.now }
    requires few { AreCountable entries.now }
    ensures { IfOk result (λ counted. MatchResult counted
        (λ n. CountedIn E.form (D.verdict decider.now) start entries.now last.now n.rounds n.waiting)
        (λ e. DiffersAt E.form (D.verdict decider.now) start entries.now last.now e.place)) }
{
    meter_tells_rounds();
    let mut meter = Meter::make(alloc, decider, start)?;
    for told in entries {
        match meter.feed_in(told) {
            Ok(()) => {}
            Err(differs) => return Ok(Err(differs)),
        }
    }
    if meter.world().same(last) {
        Ok(Ok(RoundCount {
            rounds: meter.rounds(),
            waiting: meter.waiting(),
        }))
    } else {
        Ok(Err(Differs {
            place: entries.len() as u32,
        }))
    }
}

/// How many rounds of a run have ended, and how many amoebots are not settled in the last one
/// that was started: a line for each.
pub fn print_rounds(alloc: Global, rounds: u32, waiting: u32) -> Result<Text, NoMemory>
    ensures { IfOk result (λ text. text ≡ rounds_text rounds waiting) }
{
    let mut lines = Lines::new(alloc);
    put_number(&mut lines, "rounds", rounds)?;
    put_number(&mut lines, "waiting", waiting)?;
    Ok(lines.text())
}

/// The rounds of a run are told in one way, and entries from a valid shape without gaps that agree
/// have rounds that are told.
pub fn rounds_are_decided<E: EntryForm>()
    ensures { RoundsAreDecided E.form }
{
    rounds_are_unique();
    each_run_is_rounded();
    plain_run_is_unique();
}
