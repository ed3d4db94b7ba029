//! Reports of `run` and of `tickets` on threads, by programs from their texts.
//! Each is judged by a simple checker that knows the model and nothing of claims.
//! Its text, behind the document, agrees under `replay`.

use crate::meetings::{MEETINGS, ON_THREADS, ONE_FOR_SIXTEEN, SIXTEEN_APART, SIXTEEN_FOR_SIXTEEN};
use action_eval::Runner;
use activation::{Gate, NoGate};
use amoebot_run::{Status, run_text};
use claim_core::Report;
use outer_io::SureSink;
use shape_files::{Form, read_sections};
use shipped_programs::HEXAGON;
use std::alloc::{AllocError, Global};
use std::process::Abort;
use std::sync::Wait;
use std::test::Fail;
use std::thread::Threads;
use tests_claims::{YieldGate, is_report};
use tests_shared::calls::words;
use tests_shared::pieces::spelled;
use tests_shared::replays::{Replayed, run_and_replay};

/// Whether the report is one of the document's run, by the checker.
fn is_report_of(alloc: Global, document: &str, report: &Report) -> Result<bool, Fail> {
    if document.len() > 1_000_000 {
        return Ok(false);
    }
    let Ok(sections) = read_sections(alloc, document.as_bytes(), Form::Run) else {
        return Ok(false);
    };
    let parts = sections.into_parts();
    let runner = Runner::new(parts.checked.ok_or("a program")?);
    let world = parts.world.ok_or("a shape")?;
    let lists = parts.lists.ok_or("lists")?;
    is_report(alloc, &runner, &world, &lists, report)
}

/// Runs the document by a word, with this gate.
/// The report passes the checker, and the text behind the document agrees.
pub(crate) fn right_report<R: Abort + Threads + Wait + Sync, G: Gate>(
    rt: &R,
    alloc: Global,
    word: &str,
    document: &str,
    gate: &G,
) -> Result<Report, Fail> {
    let Replayed { report, whole: _ } = run_and_replay(rt, alloc, word, document, gate)?;
    let passes = is_report_of(alloc, document, &report)?;
    assert!(rt; passes, "{word} of {document}");
    Ok(report)
}

/// The document leaves a right report by each word.
/// Every fourth time the gate lets other threads go first.
pub(crate) fn check_reports<R: Abort + Threads + Wait + Sync>(
    rt: &R,
    alloc: Global,
    document: &str,
    time: u64,
) -> Result<(), Fail> {
    for word in ON_THREADS {
        if time % 4 == 0 {
            right_report(rt, alloc, word, document, &YieldGate)?;
        } else {
            right_report(rt, alloc, word, document, &NoGate)?;
        }
    }
    Ok(())
}

/// Eighty runs by each word, of two, four and sixteen lists.
#[test]
fn reports_where_zones_meet_pass_the_checker_and_agree(rt: HostRuntime) -> Result<(), Fail> {
    for template in MEETINGS {
        let document = spelled(rt.alloc(), template)?;
        for time in 0..20 {
            check_reports(&rt, rt.alloc(), document.as_str(), time)?;
        }
    }
    Ok(())
}

/// Documents of sixteen callers, and how many entries there are at least and at most.
static FOR_SIXTEEN: [(&str, usize, usize); 3] = [
    // One of them marks the amoebot.
    (ONE_FOR_SIXTEEN, 1, 1),
    // They mark each amoebot at most once.
    (SIXTEEN_FOR_SIXTEEN, 0, 16),
    // Their zones never meet, and each of their turns commits.
    (SIXTEEN_APART, 256, 256),
];

/// By this word the sixteen callers leave so many entries.
fn check_sixteen<R: Abort + Threads + Wait + Sync>(
    rt: &R,
    alloc: Global,
    word: &str,
) -> Result<(), Fail> {
    for (template, least, most) in &FOR_SIXTEEN {
        let document = spelled(alloc, template)?;
        let report = right_report(rt, alloc, word, document.as_str(), &NoGate)?;
        let entries = report.journal.entries().len();
        assert!(rt;
            *least <= entries && entries <= *most,
            "{entries} by {word}"
        );
        assert!(rt; report.turns.callers() == 16);
    }
    Ok(())
}

#[test]
fn sixteen_callers_leave_right_reports(rt: HostRuntime) -> Result<(), Fail> {
    for word in ON_THREADS {
        check_sixteen(&rt, rt.alloc(), word)?;
    }
    Ok(())
}

/// The document of 100 amoebots in a row, of which the first is the seed of a hexagon,
/// in four lists of every fourth one.
fn row_of_100(alloc: Global) -> Result<String, AllocError> {
    let mut text = String::from_str(alloc, "amoebot 1\n")?;
    text.push_str(HEXAGON)?;
    text = text.replacen(alloc, "guard off", "guard on", 1)?;
    text.push_str("shape\narea 0 0 128 21\nbot 14 10 14 10 0 + 1 6 0\n")?;
    for x in 15..114 {
        let bot = format!(in alloc; "bot {x} 10 {x} 10 0 + 0 6 6\n")?;
        text.push_str(&bot)?;
    }
    text.push_str("end\nlists\nturns 4000\n")?;
    for caller in 0..4u16 {
        text.push_str("list")?;
        for k in 0..25u16 {
            let id = format!(in alloc; " {}", 4 * k + caller)?;
            text.push_str(&id)?;
        }
        text.push_str("\n")?;
    }
    text.push_str("end\n")?;
    Ok(text)
}

/// By this word the row is as it was in number, and connected.
fn check_row<R: Abort + Threads + Wait + Sync>(
    rt: &R,
    alloc: Global,
    word: &str,
    document: &str,
) -> Result<(), Fail> {
    let replayed = run_and_replay(rt, alloc, word, document, &NoGate)?;
    assert!(rt; replayed.report.turns.callers() == 4);
    let words = words(alloc, &["measure"])?;
    let mut out = SureSink::new(alloc, 4096)?;
    let whole = replayed.whole.as_slice();
    let ended = run_text(rt, alloc, words.as_slice(), whole, &mut out);
    assert!(rt; ended.status == Status::Done);
    let text = "bots 100\nconnected yes\n";
    assert!(rt; out.bytes().starts_with(text.as_bytes()));
    Ok(())
}

#[test]
fn a_guarded_row_of_100_stays_connected(rt: HostRuntime) -> Result<(), Fail> {
    let document = row_of_100(rt.alloc())?;
    for word in ON_THREADS {
        check_row(&rt, rt.alloc(), word, document.as_str())?;
    }
    Ok(())
}
