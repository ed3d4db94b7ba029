//! The command `renew`: the journal of a document is written with the old values.

ghost use Rattle.std.specs.{Prelude.{◌≡◌, ◌<◌, length, IfOk, map, MatchResult, ◌≤◌}, List.{All}};
ghost use Rattle.amoebot_state.specs.{Steps.{plain_entry}, Limits.{most_vars}};
ghost use Rattle.serial_model.specs.{Forms.{full_entry}, Replays.{AreCountable}};
ghost use Rattle.shape_files.specs.{Fitting.{Fits}, Views.{contents}};
ghost use Rattle.document_answers.specs.Journals.{Agrees, DiffersAt, EntriesOutcome};
ghost use Rattle.document_answers.specs.Renew.{renewed_text, RenewOutcome};
ghost use Rattle.document_answers.specs.Answers.{IsAnswerOf, with_text};
ghost use Rattle.action_meaning.specs.Verdicts.{verdict_shown};

use crate::answer::{Answer, differ, done};
use crate::lines::put_word;
use crate::recorded::{Journal, recorded_in};
use crate::replay::compare;
use crate::status::Status;
use action_eval::Runner;
use action_print::put_program;
use action_tree::Program;
use amoebot_state::{Decider, Entry, NoMemory, PlainEntry, World};
use journal_text::put_journal;
use serial_model::{Differs, EntryForm, Serial};
use shape_files::{Form, Parts};
use shape_text::put_shape;
use std::alloc::Global;
use text_tokens::{Lines, Text};

/// The journal is compared as for `replay`. Where it agrees the document is written anew.
pub fn answer_renew(alloc: Global, parts: Parts) -> Result<Answer, NoMemory>
    requires { Fits Form.Replay (contents parts) }
    ensures { IfOk result (IsAnswerOf (RenewOutcome (contents parts))) }
{
    let (runner, start, last, journal) = recorded_in(parts);
    match journal {
        Journal::Full(full) => renew_full(alloc, &runner, &start, full.entries(), &last),
        Journal::Plain(plain) => renew_plain(alloc, &runner, &start, plain.entries(), &last),
    }
}

/// The answer to entries with their old values, whose amoebots are the start's.
/// They are written as they were read.
fn renew_full(
    alloc: Global,
    runner: &Runner,
    start: &World,
    entries: &[Entry],
    last: &World,
) -> Result<Answer, NoMemory>
    requires there { All (λ e. e.bot < length start.now.bots) entries.now }
    requires few { AreCountable entries.now }
    ensures { IfOk result (
        IsAnswerOf (EntriesOutcome full_entry (verdict_shown runner.now) start.now entries.now last.now
        (λ es text. text ≡ renewed_text runner.now start.now es last.now))) }
{
    let taken = start.copy(alloc)?;
    match compare(runner, taken, entries, last) {
        Ok(()) => renew(alloc, runner, start, entries, last),
        Err(differs) => differ(alloc, differs.place),
    }
}

/// The answer to entries without them. The entries of their run are made.
fn renew_plain(
    alloc: Global,
    runner: &Runner,
    start: &World,
    entries: &[PlainEntry],
    last: &World,
) -> Result<Answer, NoMemory>
    requires there { All (λ p. p.bot < length start.now.bots) entries.now }
    requires few { AreCountable entries.now }
    ensures { IfOk result (
        IsAnswerOf (EntriesOutcome plain_entry (verdict_shown runner.now) start.now entries.now last.now
        (λ es text. text ≡ renewed_text runner.now start.now es last.now))) }
{
    let taken = start.copy(alloc)?;
    match follow_all(alloc, runner, taken, entries, last)? {
        Ok(followed) => renew(alloc, runner, start, followed.as_slice(), last),
        Err(differs) => differ(alloc, differs.place),
    }
}

/// The answer that is a document of a run: the program, the shape at the start,
/// the entries with their old values, and the last shape.
fn renew(
    alloc: Global,
    runner: &Runner,
    start: &World,
    entries: &[Entry],
    last: &World,
) -> Result<Answer, NoMemory>
    ensures { IfOk result (λ a.
        a ≡ with_text Status.Done (renewed_text runner.now start.now entries.now last.now)) }
{
    let text = print_renewed(alloc, runner.checked().program(), start, entries, last)?;
    Ok(done(text))
}

/// The entries of the run from the start to the last world that these tell in a form,
/// whose amoebots are the world's.
/// If there is none, it differs where `compare` says so.
pub fn follow_all<D: Decider, E: EntryForm>(
    alloc: Global,
    decider: &D,
    start: World,
    entries: &[E],
    last: &World,
) -> Result<Result<Vec<Entry>, Differs>, NoMemory>
    requires there { All (λ e. E.bot e < length start.bots) entries.now }
    requires few { AreCountable entries.now }
    ensures { IfOk result (λ followed. MatchResult followed
        (λ es. (map E.form es.items ≡ entries.now) × Agrees (D.verdict decider.now) start es.items last.now)
        (λ e. DiffersAt E.form (D.verdict decider.now) start entries.now last.now e.place)) }
{
    let mut followed = Vec::with_capacity(alloc, entries.len())?;
    let mut serial = Serial::new(start);
    for (place, told) in entries.iter().enumerate() {
        match serial.follow_in(decider, told) {
            Some(entry) => followed.push(entry)?,
            None => {
                return Ok(Err(Differs {
                    place: place as u32,
                }));
            }
        }
    }
    if serial.world().same(last) {
        Ok(Ok(followed))
    } else {
        Ok(Err(Differs {
            place: entries.len() as u32,
        }))
    }
}

/// A document of version 3: the program, which has at most 8 variables, the shape,
/// the entries with their old values, and the last shape.
pub fn print_renewed(
    alloc: Global,
    program: &Program,
    start: &World,
    entries: &[Entry],
    last: &World,
) -> Result<Text, NoMemory>
    requires { length program.now.vars ≤ most_vars }
    ensures { IfOk result (λ text. text ≡ renewed_text program.now start.now entries.now last.now) }
{
    let vars = program.vars().len() as u8;
    let mut lines = Lines::new(alloc);
    put_word(&mut lines, "amoebot", "3")?;
    put_program(&mut lines, program)?;
    put_shape(&mut lines, "shape", start, vars)?;
    put_journal(&mut lines, entries, vars)?;
    put_shape(&mut lines, "final", last, vars)?;
    Ok(lines.text())
}
