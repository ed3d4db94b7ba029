//! Documents that are run by workers, and what `replay` says of them with their text behind them.

use crate::calls::{check, words};
use activation::Gate;
use amoebot_run::{Ended, Status, run};
use claim_core::Report;
use outer_io::{SureSink, SureSource};
use std::alloc::Global;
use std::sync::Wait;
use std::test::Fail;
use std::thread::Threads;

/// What a run leaves: its report, and the document with the text behind it.
#[derive(Drop)]
pub struct Replayed {
    /// The report.
    pub report: Report,
    /// The bytes of the document and of the text.
    pub whole: Vec<u8>,
}

/// Whether the call is done. Turns come with `run` alone, and tickets with `tickets` alone.
fn is_done_by(ended: &Ended, word: &str) -> bool {
    ended.status == Status::Done
        && ended.turns.is_some() == (word == "run")
        && ended.tickets.is_some() == (word == "tickets")
}

/// The report of a call that is done.
fn report_in(ended: Ended, word: &str) -> Result<Report, Fail> {
    if !is_done_by(&ended, word) {
        return Err(Fail::new(format_args!("{word} is not done")));
    }
    let Ended {
        status: _,
        report,
        turns: _,
        tickets: _,
    } = ended;
    match report {
        Some(report) => Ok(report),
        None => Err(Fail::from("a report")),
    }
}

/// Runs the document by a word, with this gate.
fn report_by<R: Threads + Wait + Sync, G: Gate>(
    rt: &R,
    alloc: Global,
    word: &str,
    document: &str,
    gate: &G,
    out: &mut SureSink,
) -> Result<Report, Fail> {
    let words = words(alloc, &[word])?;
    let mut input = SureSource::new(alloc, document.as_bytes())?;
    report_in(
        run(rt, alloc, words.as_slice(), &mut input, out, gate),
        word,
    )
}

/// The same, with the text behind the document.
fn run_by<R: Threads + Wait + Sync, G: Gate>(
    rt: &R,
    alloc: Global,
    word: &str,
    document: &str,
    gate: &G,
) -> Result<Replayed, Fail> {
    let mut out = SureSink::new(alloc, 4_000_000)?;
    let report = report_by(rt, alloc, word, document, gate, &mut out)?;
    let mut whole: Vec<u8> = Vec::new(alloc);
    whole.extend_from_slice(document.as_bytes())?;
    whole.extend_from_slice(out.bytes())?;
    Ok(Replayed { report, whole })
}

/// With the text behind it the document agrees under `replay`.
fn check_replay<R: Threads + Wait + Sync>(
    rt: &R,
    alloc: Global,
    replayed: &Replayed,
) -> Result<(), Fail> {
    let entries = replayed.report.journal.entries().len();
    let agrees = format!(in alloc; "agrees {entries}\n")?;
    check(
        rt,
        alloc,
        &["replay"],
        replayed.whole.as_slice(),
        Status::Done,
        None,
        agrees.as_str(),
    )
}

/// Runs the document, whose last byte is LF, by a word, with this gate.
/// With the text behind it the document agrees under `replay`.
pub fn run_and_replay<R: Threads + Wait + Sync, G: Gate>(
    rt: &R,
    alloc: Global,
    word: &str,
    document: &str,
    gate: &G,
) -> Result<Replayed, Fail> {
    let replayed = run_by(rt, alloc, word, document, gate)?;
    check_replay(rt, alloc, &replayed)?;
    Ok(replayed)
}
