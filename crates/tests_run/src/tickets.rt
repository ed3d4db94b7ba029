//! The command `tickets`: documents of at most one list leave by it what they leave by `run`,
//! and are refused as by `run`.

use crate::faults::FAULTS;
use crate::runs::{RUNS, WHOLE_PROGRAMS};
use crate::walls::{COMMANDS as WALLED, REFUSED};
use amoebot_run::{Ended, Status, run_text};
use outer_io::SureSink;
use std::alloc::Global;
use std::process::Abort;
use std::sync::Wait;
use std::test::Fail;
use std::thread::Threads;
use tests_shared::calls::{check, words};
use tests_shared::pieces::{Fault, Row, spelled};
use text_tokens::Refusal;

/// The document of each row of `run` leaves the row's text.
fn check_rows_by_tickets<R: Threads + Wait + Sync>(
    rt: &R,
    alloc: Global,
    rows: &[Row],
) -> Result<(), Fail> {
    for (word, template, status, entries, text) in rows {
        if *word == "run" {
            let document = spelled(alloc, template)?;
            let text = spelled(alloc, text)?;
            let bytes = document.as_bytes();
            check(
                rt,
                alloc,
                &["tickets"],
                bytes,
                *status,
                *entries,
                text.as_str(),
            )?;
        }
    }
    Ok(())
}

/// The document of each row of `run` is refused as the row says.
fn check_faults_by_tickets<R: Threads + Wait + Sync>(
    rt: &R,
    alloc: Global,
    faults: &[Fault],
) -> Result<(), Fail> {
    for (word, template, line, kind, text) in faults {
        if *word == "run" {
            let document = spelled(alloc, template)?;
            let refusal = Refusal {
                line: *line,
                kind: *kind,
            };
            let status = Status::Refused(refusal);
            check(
                rt,
                alloc,
                &["tickets"],
                document.as_bytes(),
                status,
                None,
                text,
            )?;
        }
    }
    Ok(())
}

#[test]
fn lists_are_run_by_tickets(rt: HostRuntime) -> Result<(), Fail> {
    check_rows_by_tickets(&rt, rt.alloc(), &RUNS)
}

#[test]
fn whole_programs_are_run_by_tickets(rt: HostRuntime) -> Result<(), Fail> {
    check_rows_by_tickets(&rt, rt.alloc(), &WHOLE_PROGRAMS)
}

#[test]
fn walls_stay_under_tickets(rt: HostRuntime) -> Result<(), Fail> {
    check_rows_by_tickets(&rt, rt.alloc(), &WALLED)
}

#[test]
fn tickets_refuse_what_run_refuses(rt: HostRuntime) -> Result<(), Fail> {
    check_faults_by_tickets(&rt, rt.alloc(), &FAULTS)?;
    check_faults_by_tickets(&rt, rt.alloc(), &REFUSED)
}

/// A document for each of the words below.
const SCHEDULED: &str = "{OUT}{ONE}{TWO_TURNS}schedule\nend\n";

/// Each word, whether turns come with it, and whether tickets do.
static COMING: [(&str, bool, bool); 4] = [
    ("run", true, false),
    ("tickets", false, true),
    ("interleave", false, false),
    ("check", false, false),
];

/// Turns came or not, and tickets came or not.
fn came(rt: &impl Abort, ended: &Ended, turns: bool, tickets: bool) {
    assert!(rt; ended.turns.is_some() == turns);
    assert!(rt; ended.tickets.is_some() == tickets);
}

/// By the word the document leaves turns or none, and tickets or none.
fn check_coming<R: Abort + Threads + Wait + Sync>(
    rt: &R,
    alloc: Global,
    document: &str,
    coming: &(&str, bool, bool),
) -> Result<(), Fail> {
    let (word, turns, tickets) = coming;
    let words = words(alloc, &[word])?;
    let mut out = SureSink::new(alloc, 4096)?;
    let ended = run_text(rt, alloc, words.as_slice(), document.as_bytes(), &mut out);
    came(rt, &ended, *turns, *tickets);
    Ok(())
}

#[test]
fn tickets_come_with_tickets_alone(rt: HostRuntime) -> Result<(), Fail> {
    let document = spelled(rt.alloc(), SCHEDULED)?;
    for coming in &COMING {
        check_coming(&rt, rt.alloc(), document.as_str(), coming)?;
    }
    Ok(())
}
