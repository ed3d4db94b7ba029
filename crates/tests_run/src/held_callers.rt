//! A gate that holds one caller, with its zone claimed and nothing committed,
//! while the others make all their turns.

use crate::meetings::{FOUR_APART, ON_THREADS};
use crate::reports::right_report;
use std::alloc::Global;
use std::process::Abort;
use std::sync::Wait;
use std::test::Fail;
use std::thread::Threads;
use tests_claims::{LateGate, is_late};
use tests_shared::pieces::spelled;

/// How many turns each of the four callers has.
const TURNS: u32 = 64;

/// By this word the three others make their turns while caller 0 is held, and wait for nothing.
fn waits_for_nobody<R: Abort + Threads + Wait + Sync>(
    rt: &R,
    alloc: Global,
    word: &str,
) -> Result<(), Fail> {
    let document = spelled(alloc, FOUR_APART)?;
    let gate = LateGate::new(1, 3, TURNS - 1, 10_000);
    let report = right_report(rt, alloc, word, document.as_str(), &gate)?;
    assert!(rt; !gate.missed() && is_late(&report.turns, TURNS));
    Ok(())
}

#[test]
fn nobody_waits_for_a_caller_that_is_held(rt: HostRuntime) -> Result<(), Fail> {
    for word in ON_THREADS {
        waits_for_nobody(&rt, rt.alloc(), word)?;
    }
    Ok(())
}
