//! Workers that wait for one another in each turn.
use crate::runs::{WAYS, Way, report_of, report_over};
use activation::{Gate, NoGate};
use amoebot_state::{CellName, Decider, End, Failure, Found, Port, Verdict, World};
use claim_core::{Mark, Marks, Report};
use small_worlds::{Expander, Marker, lists_of, standing};
use std::alloc::Global;
use std::process::Abort;
use std::sync::Wait;
use std::sync::atomic::{AtomicBool, Ordering};
use std::test::Fail;
use std::thread;
use std::thread::Threads;
use tri_lattice::Area;
use turn_workers::MeetGate;

/// Expands contracted amoebots through head 0.
const EXPANDER: Expander = Expander {
    port: Port {
        end: End::Head,
        dir: 0,
    },
};

/// Whether each caller has these marks.
pub fn have_marks(marks: &Marks, wanted: &[&[Mark]]) -> bool {
    if usize::from(marks.callers()) != wanted.len() {
        return false;
    }
    for (caller, own) in wanted.iter().enumerate() {
        if !has_marks(marks, caller as u8, own) {
            return false;
        }
    }
    true
}

fn has_marks(marks: &Marks, caller: u8, wanted: &[Mark]) -> bool {
    if caller >= marks.callers() || marks.count(caller) as usize != wanted.len() {
        return false;
    }
    for (turn, mark) in wanted.iter().enumerate() {
        if marks.mark(caller, turn as u32) != *mark {
            return false;
        }
    }
    true
}

const DONE_0: Mark = Mark::Done { place: 0 };

const DONE_1: Mark = Mark::Done { place: 1 };

const IDLE_1: Mark = Mark::Idle { place: 1 };

const IDLE_2: Mark = Mark::Idle { place: 2 };

/// Each expands in its first turn, in either order, and then rests.
/// They meet in each turn, so both have expanded before a second turn.
static EITHER_FIRST: [[&[Mark]; 2]; 2] = [
    [&[DONE_0, IDLE_2, IDLE_2], &[DONE_1, IDLE_2, IDLE_2]],
    [&[DONE_1, IDLE_2, IDLE_2], &[DONE_0, IDLE_2, IDLE_2]],
];

fn two_meet<R: Abort + Threads + Wait + Sync>(rt: &R, alloc: Global, way: Way) -> Result<(), Fail> {
    let gate = MeetGate::new(2, 50_000_000);
    let bots = [standing(1, 1, 0), standing(6, 6, 0)];
    let report = report_of(rt, alloc, way, &EXPANDER, &bots, 3, &[&[0], &[1]], &gate)?;
    let marks = &report.turns;
    assert!(rt; gate.met() && EITHER_FIRST.iter().any(|wanted| have_marks(marks, wanted)));
    Ok(())
}

#[test]
fn two_workers_far_from_each_other_meet_in_each_turn(rt: HostRuntime) -> Result<(), Fail> {
    two_meet(&rt, rt.alloc(), Way::Journal)
}

#[test]
fn two_ticket_workers_meet_in_each_turn(rt: HostRuntime) -> Result<(), Fail> {
    two_meet(&rt, rt.alloc(), Way::Tickets)
}

/// A caller's first turn waits, with its zone claimed, until the other caller has come to its last
/// turn; and that one begins when it waits.
#[derive(Drop)]
struct Holding {
    held: AtomicBool,
    passed: AtomicBool,
}

impl Holding {
    /// Looks until this is so, many times.
    fn wait_for(&self, flag: &AtomicBool) {
        for _look in 0..50_000_000u32 {
            if flag.load(Ordering::SeqCst) {
                return;
            }
            thread::yield_now();
        }
    }
}

impl Gate for Holding {
    fn claimed(&self, caller: u8, turn: u32) {
        match (caller, turn) {
            (0, 0) => {
                self.held.store(true, Ordering::SeqCst);
                self.wait_for(&self.passed);
            }
            (1, 0) => self.wait_for(&self.held),
            (1, 2) => self.passed.store(true, Ordering::SeqCst),
            _ => {}
        }
    }
}

/// Caller 1 is refused the amoebot of caller 0 behind its own first entry,
/// and caller 0 commits later.
static ONE_IS_HELD: [&[Mark]; 2] = [
    &[DONE_1, IDLE_2, IDLE_2],
    &[
        DONE_0,
        Mark::Busy {
            cell: CellName::Body(0),
            by_caller: 0,
            by_turn: 0,
            by_bot: 0,
            place: 1,
        },
        IDLE_1,
    ],
];

fn one_is_held<R: Abort + Threads + Wait + Sync>(
    rt: &R,
    alloc: Global,
    way: Way,
) -> Result<(), Fail> {
    let gate = Holding {
        held: AtomicBool::new(false),
        passed: AtomicBool::new(false),
    };
    let bots = [standing(1, 1, 0), standing(6, 6, 0)];
    let lists: &[&[u16]] = &[&[0], &[1, 0, 1]];
    let report = report_of(rt, alloc, way, &EXPANDER, &bots, 3, lists, &gate)?;
    assert!(rt; have_marks(&report.turns, &ONE_IS_HELD));
    Ok(())
}

#[test]
fn a_turn_is_busy_while_another_worker_holds_its_amoebot(rt: HostRuntime) -> Result<(), Fail> {
    one_is_held(&rt, rt.alloc(), Way::Journal)
}

#[test]
fn a_ticket_turn_is_busy_while_another_worker_holds_its_amoebot(
    rt: HostRuntime,
) -> Result<(), Fail> {
    one_is_held(&rt, rt.alloc(), Way::Tickets)
}

/// Waits for the other callers in each decision, and is idle.
#[derive(Drop)]
struct Meeting {
    gate: MeetGate,
}

impl Decider for Meeting {
    ghost use Rattle.std.proofs.Common.{subst};
    ghost use Rattle.amoebot_state.specs.declared.verdict.Verdict.{Verdict};
    ghost use Rattle.amoebot_state.specs.declared.verdict.Verdict.TheVariants as verdict;

    ghost verdict = { λ _ _. verdict.Idle };

    ghost is_lawful = { λ _ c i change h.
        let Stays : Verdict → Type 0 = λ v.
        elim v [ verdict.Idle ↦ Unit {0} | verdict.Failed _ ↦ Unit {0} | verdict.Change _ ↦ ⊥ ] in
        absurd (subst Stays h.decided tt) };

    fn decide(&self, found: &Found) -> Verdict {
        self.gate.claimed((found.bot() % 256) as u8, 0);
        Verdict::Idle
    }
}

fn decide_beside_each_other<R: Abort + Threads + Wait + Sync>(
    rt: &R,
    alloc: Global,
    way: Way,
) -> Result<(), Fail> {
    let decider = Meeting {
        gate: MeetGate::new(2, 50_000_000),
    };
    let bots = [standing(1, 1, 0), standing(6, 6, 0)];
    report_of(rt, alloc, way, &decider, &bots, 1, &[&[0], &[1]], &NoGate)?;
    assert!(rt; decider.gate.met());
    Ok(())
}

#[test]
fn workers_decide_beside_each_other(rt: HostRuntime) -> Result<(), Fail> {
    for way in WAYS {
        decide_beside_each_other(&rt, rt.alloc(), way)?;
    }
    Ok(())
}

/// Sixteen contracted amoebots of which no two have a node of their zones in common.
pub fn scattered(alloc: Global) -> Result<World, Fail> {
    let mut bots = Vec::new(alloc);
    for number in 0..16u8 {
        bots.push(standing(3 * (number % 4) + 1, 3 * (number / 4) + 1, 0))?;
    }
    let area = Area::new(0, 0, 13, 13).ok_or("an area")?;
    Ok(World::new(alloc, area, [1, 0, 0, 0, 0, 0, 0, 0], bots.as_slice())?)
}

/// A list for each of sixteen callers.
static SIXTEEN: [&[u16]; 16] = [
    &[0],
    &[1],
    &[2],
    &[3],
    &[4],
    &[5],
    &[6],
    &[7],
    &[8],
    &[9],
    &[10],
    &[11],
    &[12],
    &[13],
    &[14],
    &[15],
];

fn sixteen_meet<R: Abort + Threads + Wait + Sync>(
    rt: &R,
    alloc: Global,
    way: Way,
) -> Result<(), Fail> {
    let gate = MeetGate::new(16, 50_000_000);
    let world = scattered(alloc)?;
    let lists = lists_of(alloc, 2, &world, &SIXTEEN)?;
    let report = report_over(rt, alloc, way, &Marker, world, &lists, &gate)?;
    assert!(rt; gate.met() && report.journal.entries().len() == 16);
    Ok(())
}

#[test]
fn sixteen_workers_meet_in_each_turn(rt: HostRuntime) -> Result<(), Fail> {
    for way in WAYS {
        sixteen_meet(&rt, rt.alloc(), way)?;
    }
    Ok(())
}

/// How many turns there are, and the lists, where nobody has a turn;
/// and no list or no turn is left.
static NO_TURNS: [(u32, &[&[u16]], &[&[Mark]]); 2] = [
    (3, &[], &[]),
    (0, &[&[0], &[0]], &[&[], &[]]),
];

fn all_stay<R: Abort + Threads + Wait + Sync>(rt: &R, alloc: Global, way: Way) -> Result<(), Fail> {
    for (turns, ids, wanted) in &NO_TURNS {
        let bots = [standing(1, 1, 0)];
        let report = report_of(rt, alloc, way, &EXPANDER, &bots, *turns, ids, &NoGate)?;
        assert!(rt; stays(&report) && have_marks(&report.turns, wanted));
    }
    Ok(())
}

#[test]
fn without_a_list_or_a_turn_the_world_stays(rt: HostRuntime) -> Result<(), Fail> {
    for way in WAYS {
        all_stay(&rt, rt.alloc(), way)?;
    }
    Ok(())
}

fn stays(report: &Report) -> bool {
    report.journal.entries().is_empty() && report.world.same(report.journal.first())
}

/// The first stands behind the second, and fails twice; the second expands, and then it is idle.
static ONE_CALLER: [&[Mark]; 1] = [&[
    Mark::Failed {
        failure: Failure::Occupied,
        place: 0,
    },
    DONE_0,
    Mark::Failed {
        failure: Failure::Occupied,
        place: 1,
    },
    IDLE_1,
]];

#[test]
fn a_caller_alone_is_never_busy(rt: HostRuntime) -> Result<(), Fail> {
    let bots = [standing(1, 1, 0), standing(2, 1, 0)];
    for way in WAYS {
        let alloc = rt.alloc();
        let report = report_of(&rt, alloc, way, &EXPANDER, &bots, 4, &[&[0, 1]], &NoGate)?;
        assert!(rt; have_marks(&report.turns, &ONE_CALLER));
    }
    Ok(())
}
