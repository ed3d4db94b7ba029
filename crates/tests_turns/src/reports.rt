//! Reports of real threads over small worlds where zones meet,
//! judged by a simple checker that knows the model and nothing of claims.
ghost use Rattle.std.specs.Prelude.{◌≤◌, length};
ghost use Rattle.std.specs.List.{All};
ghost use Rattle.amoebot_state.specs.Limits.{most_bots};
ghost use Rattle.amoebot_state.specs.Refusals.{IsBotInRange};

use crate::runs::{WAYS, report_of};
use activation::NoGate;
use amoebot_state::{Bot, Decider, End, Port};
use small_worlds::{Expander, Marker, lists_of, standing, turned, world_of};
use std::alloc::Global;
use std::process::Abort;
use std::sync::Wait;
use std::test::Fail;
use std::thread::Threads;
use tests_claims::{YieldGate, is_report};

/// Expands contracted amoebots through head 0.
const EXPANDER: Expander = Expander {
    port: Port {
        end: End::Head,
        dir: 0,
    },
};

/// Judges the reports of so many runs by each way.
/// Each journal, replayed, gives the report's world.
fn check_runs<R: Threads + Wait + Sync + Abort, D: Decider>(
    rt: &R,
    alloc: Global,
    decider: &D,
    bots: &[Bot],
    lists: (u32, &[&[u16]]),
    runs: u32,
) -> Result<(), Fail>
    requires few { length bots.now ≤ most_bots }
    requires in_range { All IsBotInRange bots.now }
{
    let (turns, ids) = lists;
    let first = world_of(alloc, bots)?;
    let lists = lists_of(alloc, turns, &first, ids)?;
    for run in 0..runs {
        for way in WAYS {
            let report = if run % 2 == 0 {
                report_of(rt, alloc, way, decider, bots, turns, ids, &NoGate)?
            } else {
                report_of(rt, alloc, way, decider, bots, turns, ids, &YieldGate)?
            };
            let passes = is_report(alloc, decider, &first, &lists, &report)?;
            assert!(rt; passes, "run {run}");
        }
    }
    Ok(())
}

#[test]
fn two_workers_leave_right_reports(rt: HostRuntime) -> Result<(), Fail> {
    check_runs(
        &rt,
        rt.alloc(),
        &Marker,
        &[standing(2, 3, 0), standing(3, 3, 0), standing(2, 4, 0)],
        (4, &[&[0, 1, 2], &[2, 1]]),
        20,
    )
}

#[test]
fn four_workers_that_want_one_node_leave_right_reports(rt: HostRuntime) -> Result<(), Fail> {
    check_runs(
        &rt,
        rt.alloc(),
        &EXPANDER,
        &[
            standing(2, 3, 0),
            turned(4, 3),
            standing(7, 4, 0),
            standing(6, 4, 0),
        ],
        (3, &[&[0, 2], &[1], &[3, 0, 1], &[2, 3]]),
        20,
    )
}

#[test]
fn sixteen_workers_on_three_amoebots_leave_right_reports(rt: HostRuntime) -> Result<(), Fail> {
    check_runs(
        &rt,
        rt.alloc(),
        &Marker,
        &[standing(2, 3, 0), standing(3, 3, 0), standing(2, 4, 0)],
        (
            3,
            &[
                &[0],
                &[1],
                &[2],
                &[0, 1],
                &[1, 2],
                &[2, 0],
                &[0],
                &[1],
                &[2],
                &[0, 1],
                &[1, 2],
                &[2, 0],
                &[0],
                &[1],
                &[2],
                &[2, 1, 0],
            ],
        ),
        20,
    )
}
