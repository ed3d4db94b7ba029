//! The command `replay`: the journal of a document is compared with a run.

ghost use Rattle.std.specs.{Prelude.{◌≡◌, ◌<◌, length, IfOk, IfErr, OnOk}, List.{All}};
ghost use Rattle.serial_model.specs.Replays.{AreCountable};
ghost use Rattle.shape_files.specs.{Fitting.{Fits}, Views.{contents}};
ghost use Rattle.document_answers.specs.Journals.{AgreesIn, DiffersAt, differs_line, EntriesOutcome};
ghost use Rattle.document_answers.specs.{Replay.{agrees_line, ReplayOutcome}, AnswerLaws.{ReplayIsDecided}};
ghost use Rattle.document_answers.specs.Answers.{IsAnswerOf};
ghost use Rattle.action_meaning.specs.Verdicts.{verdict_shown};

use crate::answer::{Answer, agree, differ};
use crate::lines::put_number;
use crate::recorded::{Journal, recorded_in};
use action_eval::Runner;
use amoebot_state::{Decider, NoMemory, World};
use serial_model::{
    Differs, EntryForm, first_no_step_is_unique, plain_run_is_unique, replay_in,
    run_has_only_steps, run_or_first_no_step,
};
use shape_files::{Form, Parts};
use std::alloc::Global;
use text_tokens::{Lines, Text};

/// The journal is compared with a run from the shape to the final shape,
/// by what it has of each entry.
pub fn answer_replay(alloc: Global, parts: Parts) -> Result<Answer, NoMemory>
    requires { Fits Form.Replay (contents parts) }
    ensures { IfOk result (IsAnswerOf (ReplayOutcome (contents parts))) }
{
    let (runner, start, last, journal) = recorded_in(parts);
    match journal {
        Journal::Full(full) => tell_run(alloc, &runner, start, full.entries(), &last),
        Journal::Plain(plain) => tell_run(alloc, &runner, start, plain.entries(), &last),
    }
}

/// The answer to entries in a form, whose amoebots are the start's.
fn tell_run<E: EntryForm>(
    alloc: Global,
    runner: &Runner,
    start: World,
    entries: &[E],
    last: &World,
) -> Result<Answer, NoMemory>
    requires there { All (λ e. E.bot e < length start.bots) entries.now }
    requires few { AreCountable entries.now }
    ensures { IfOk result (
        IsAnswerOf (EntriesOutcome E.form (verdict_shown runner.now) start entries.now last.now
        (λ es text. text ≡ agrees_line (length es)))) }
{
    match compare(runner, start, entries, last) {
        Ok(()) => agree(alloc, entries.len()),
        Err(differs) => differ(alloc, differs.place),
    }
}

/// Whether the entries in a form, whose amoebots are the world's,
/// are those of a run of the model from the start to the last world.
/// If not, the first place that is no step; or the number of entries,
/// where they lead to another world.
/// It takes no memory.
pub fn compare<D: Decider, E: EntryForm>(
    decider: &D,
    start: World,
    entries: &[E],
    last: &World,
) -> Result<(), Differs>
    requires there { All (λ e. E.bot e < length start.bots) entries.now }
    requires few { AreCountable entries.now }
    ensures agrees { OnOk result (AgreesIn E.form (D.verdict decider.now) start entries.now last.now) }
    ensures differs { IfErr result (λ e.
        DiffersAt E.form (D.verdict decider.now) start entries.now last.now e.place) }
{
    let reached = replay_in(decider, start, entries)?;
    if reached.same(last) {
        Ok(())
    } else {
        Err(Differs {
            place: entries.len() as u32,
        })
    }
}

/// The line of a journal of so many entries that is a run.
pub fn print_agrees(alloc: Global, entries: usize) -> Result<Text, NoMemory>
    ensures { IfOk result (λ text. text ≡ agrees_line entries) }
{
    let mut lines = Lines::new(alloc);
    put_number(&mut lines, "agrees", entries)?;
    Ok(lines.text())
}

/// The line of a journal that differs at a place.
pub fn print_differs(alloc: Global, place: u32) -> Result<Text, NoMemory>
    ensures { IfOk result (λ text. text ≡ differs_line place) }
{
    let mut lines = Lines::new(alloc);
    put_number(&mut lines, "differs", place)?;
    Ok(lines.text())
}

/// A journal that agrees differs nowhere, and one that differs does so at one place.
/// From a valid shape each journal does one of both.
pub fn replay_is_decided<E: EntryForm>()
    ensures { ReplayIsDecided E.form }
{
    first_no_step_is_unique::<E>();
    run_has_only_steps::<E>();
    run_or_first_no_step::<E>();
    plain_run_is_unique();
}
