//! A gate that holds one caller, with its zone claimed and nothing committed,
//! while the others make all their turns.
use crate::meetings::scattered;
use crate::runs::{WAYS, Way, report_over};
use small_worlds::{Marker, lists_of};
use std::alloc::Global;
use std::process::Abort;
use std::sync::Wait;
use std::test::Fail;
use std::thread::Threads;
use tests_claims::{LateGate, is_late, is_report};

/// Four amoebots for each of four callers. No zone meets another one.
static LISTS: [&[u16]; 4] = [
    &[0, 1, 2, 3],
    &[4, 5, 6, 7],
    &[8, 9, 10, 11],
    &[12, 13, 14, 15],
];

/// How many turns each caller has.
const TURNS: u32 = 4;

/// By this way the three others make their turns while caller 0 is held, and wait for nothing.
fn wait_for_nobody<R: Abort + Threads + Wait + Sync>(
    rt: &R,
    alloc: Global,
    way: Way,
) -> Result<(), Fail> {
    let world = scattered(alloc)?;
    let first = world.copy(alloc)?;
    let lists = lists_of(alloc, TURNS, &world, &LISTS)?;
    let gate = LateGate::new(1, 3, TURNS - 1, 10_000);
    let report = report_over(rt, alloc, way, &Marker, world, &lists, &gate)?;
    assert!(rt; !gate.missed() && is_late(&report.turns, TURNS));
    let passes = is_report(alloc, &Marker, &first, &lists, &report)?;
    assert!(rt; passes);
    Ok(())
}

#[test]
fn nobody_waits_for_a_worker_that_is_held(rt: HostRuntime) -> Result<(), Fail> {
    for way in WAYS {
        wait_for_nobody(&rt, rt.alloc(), way)?;
    }
    Ok(())
}
