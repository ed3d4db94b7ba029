ghost use Rattle.std.specs.Prelude.{◌≡◌, ◌<◌, ◌≤◌, length};
ghost use Rattle.std.specs.List.{All};
ghost use Rattle.amoebot_state.specs.Limits.{most_bots};
ghost use Rattle.amoebot_state.specs.Refusals.{IsBotInRange};

use crate::checker::is_report;
use crate::core_fixtures::core_of;
use amoebot_state::{Bot, Decider, End, Port};
use claim_core::{Core, Mark, Marks, Report};
use small_worlds::{Expander, Marker, lists_of, standing, turned, world_of};
use std::alloc::Global;
use std::process::Abort;
use std::test::Fail;

/// How many turns got each kind of mark.
#[derive(Clone, Copy)]
struct Tally {
    done: u32,
    idle: u32,
    failed: u32,
    busy: u32,
}

const NONE: Tally = Tally {
    done: 0,
    idle: 0,
    failed: 0,
    busy: 0,
};

impl Tally {
    fn add(&mut self, mark: Mark) {
        match mark {
            Mark::Done { .. } => self.done = self.done.saturating_add(1),
            Mark::Idle { .. } => self.idle = self.idle.saturating_add(1),
            Mark::Failed { .. } => self.failed = self.failed.saturating_add(1),
            Mark::Busy { .. } => self.busy = self.busy.saturating_add(1),
        }
    }

    fn add_all(&mut self, turns: &Marks) {
        for caller in 0..turns.callers() {
            for turn in 0..turns.count(caller) {
                self.add(turns.mark(caller, turn));
            }
        }
    }
}

/// The next number of a row that looks random.
fn following(random: u64) -> u64 {
    random
        .wrapping_mul(6_364_136_223_846_793_005)
        .wrapping_add(1_442_695_040_888_963_407)
}

/// A number below a bound, by the high bits of a random one.
fn below(random: u64, bound: u8) -> u8
    requires { 0 < bound }
    ensures { result < bound }
{
    ((random >> 33) % u64::from(bound)) as u8
}

/// Makes some steps of callers that follow from the seed: forty times up to twelve of one caller.
fn wander<D: Decider>(core: &mut Core<'_, D>, callers: u8, seed: u64)
    requires some { 0 < callers }
    requires callers { length core.old.state.callers ≡ callers }
    ensures { length core.new.state.callers ≡ callers }
{
    let mut random = following(seed);
    for _burst in 0..40 {
        random = following(random);
        let caller = below(random, callers);
        random = following(random);
        for _step in 0..=below(random, 12) {
            core.step(caller);
        }
    }
}

/// What is left by callers of these lists over a world of these amoebots.
/// Their steps follow from the seed, and then come the rounds of `finish`.
fn left_by<D: Decider>(
    rt: &impl Abort,
    alloc: Global,
    decider: &D,
    bots: &[Bot],
    lists: (u32, &[&[u16]]),
    seed: u64,
) -> Result<Report, Fail>
    requires few { length bots.now ≤ most_bots }
    requires in_range { All IsBotInRange bots.now }
{
    let (turns, ids) = lists;
    let world = world_of(alloc, bots)?;
    let lists = lists_of(alloc, turns, &world, ids)?;
    let mut core = core_of(alloc, decider, world, &lists)?;
    let callers = lists.callers();
    assert!(rt; callers > 0);
    wander(&mut core, callers, seed);
    core.finish();
    assert!(rt; core.ended());
    Ok(core.report())
}

/// Checks the reports of seventy schedules, and counts their marks.
fn check_schedules<D: Decider>(
    rt: &impl Abort,
    alloc: Global,
    decider: &D,
    bots: &[Bot],
    lists: (u32, &[&[u16]]),
) -> Result<Tally, Fail>
    requires few { length bots.now ≤ most_bots }
    requires in_range { All IsBotInRange bots.now }
{
    let (turns, ids) = lists;
    let first = world_of(alloc, bots)?;
    let made = lists_of(alloc, turns, &first, ids)?;
    let mut tally = NONE;
    for seed in 0..70 {
        let report = left_by(rt, alloc, decider, bots, lists, seed)?;
        let passes = is_report(alloc, decider, &first, &made, &report)?;
        assert!(rt; passes, "seed {seed}");
        tally.add_all(&report.turns);
    }
    Ok(tally)
}

/// Expands contracted amoebots through head 0.
const EXPANDER: Expander = Expander {
    port: Port {
        end: End::Head,
        dir: 0,
    },
};

#[test]
fn the_checker_passes_what_neighbours_that_set_their_variables_leave(
    rt: HostRuntime,
) -> Result<(), Fail> {
    let tally = check_schedules(
        &rt,
        rt.alloc(),
        &Marker,
        &[standing(2, 3, 0), standing(3, 3, 0), standing(2, 4, 0)],
        (3, &[&[0, 1, 2], &[1, 2], &[2, 0]]),
    )?;
    assert!(rt; tally.done > 0 && tally.idle > 0 && tally.busy > 0);
    Ok(())
}

#[test]
fn the_checker_passes_what_amoebots_that_want_one_node_leave(rt: HostRuntime) -> Result<(), Fail> {
    let tally = check_schedules(
        &rt,
        rt.alloc(),
        &EXPANDER,
        &[
            standing(2, 3, 0),
            turned(4, 3),
            standing(7, 4, 0),
            standing(6, 4, 0),
        ],
        (3, &[&[0, 2], &[1], &[3, 0, 1]]),
    )?;
    assert!(rt; tally.done > 0 && tally.idle > 0 && tally.failed > 0 && tally.busy > 0);
    // In each of the runs only one of two can enter the node,
    // and the others are before the edge and before an amoebot.
    assert!(rt; tally.done <= 70);
    Ok(())
}

#[test]
fn the_checker_passes_what_five_callers_on_two_amoebots_leave(rt: HostRuntime) -> Result<(), Fail> {
    let tally = check_schedules(
        &rt,
        rt.alloc(),
        &EXPANDER,
        &[standing(0, 0, 0), standing(1, 1, 0)],
        (2, &[&[0], &[1], &[0, 1], &[1, 0], &[0]]),
    )?;
    assert!(rt; tally.done > 0 && tally.idle > 0 && tally.busy > 0);
    Ok(())
}
