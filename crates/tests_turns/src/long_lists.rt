//! Long lists, of which some are held in their first turn:
//! the others wait for them for a bounded time, and then make all their turns.
use crate::meetings::scattered;
use crate::runs::{WAYS, Way, report_over};
use small_worlds::{Marker, lists_of};
use std::alloc::Global;
use std::process::Abort;
use std::sync::Wait;
use std::test::Fail;
use std::thread::Threads;
use tests_claims::{LateGate, is_report};

/// Four amoebots for each of four callers. No zone meets another one.
static LISTS: [&[u16]; 4] = [
    &[0, 1, 2, 3],
    &[4, 5, 6, 7],
    &[8, 9, 10, 11],
    &[12, 13, 14, 15],
];

/// How many turns each caller has. Workers that keep step for ever never come to the last one.
const TURNS: u32 = 560;

/// While so many callers are held the others make all their turns, and then those make theirs.
fn wait_for_nobody_long<R: Abort + Threads + Wait + Sync>(
    rt: &R,
    alloc: Global,
    way: Way,
    held: u8,
    others: u8,
) -> Result<(), Fail> {
    let world = scattered(alloc)?;
    let first = world.copy(alloc)?;
    let lists = lists_of(alloc, TURNS, &world, &LISTS)?;
    let gate = LateGate::new(held, others, TURNS - 1, 0);
    let report = report_over(rt, alloc, way, &Marker, world, &lists, &gate)?;
    assert!(rt; !gate.missed());
    let passes = is_report(alloc, &Marker, &first, &lists, &report)?;
    assert!(rt; passes);
    Ok(())
}

#[test]
fn nobody_keeps_step_for_long_with_workers_that_are_held(rt: HostRuntime) -> Result<(), Fail> {
    for way in WAYS {
        for (held, others) in [(1, 3), (3, 1)] {
            wait_for_nobody_long(&rt, rt.alloc(), way, held, others)?;
        }
    }
    Ok(())
}
