//! The calls of a gate: one in each turn whose zone was claimed, before the decision,
//! with the turn's caller and number.
ghost use Rattle.std.specs.Prelude.{◌≡◌, IfOk};
ghost use Rattle.claim_rule.specs.Seating.{AreOf};
ghost use Rattle.claim_rule.specs.Tokens.{IsOf, number_in};

use crate::fixtures::turn_of;
use crate::runs::{WAYS, Way, report_of};
use activation::Gate;
use amoebot_state::{Decider, Found, Verdict};
use claim_core::{Lists, Mark, Marks};
use claim_rule::{Field, Seat, Seats};
use small_worlds::{Idler, Marker, lists_of, standing, world_in};
use std::alloc::Global;
use std::process::Abort;
use std::sync::Wait;
use std::sync::atomic::{AtomicU64, Ordering};
use std::test::Fail;
use std::thread;
use std::thread::Threads;
use tests_claims::{field_of, seat_of};

/// Is idle. It counts its decisions, and those that did not come right behind a call of the gate.
#[derive(Drop)]
struct Watching {
    open: AtomicU64,
    decisions: AtomicU64,
    mistakes: AtomicU64,
}

impl Watching {
    fn new() -> Watching {
        Watching {
            open: AtomicU64::new(0),
            decisions: AtomicU64::new(0),
            mistakes: AtomicU64::new(0),
        }
    }

    /// So many decisions were made, each behind one call of the gate.
    fn has_seen(&self, decisions: u64) -> bool {
        self.open.load(Ordering::SeqCst) == 0
            && self.decisions.load(Ordering::SeqCst) == decisions
            && self.mistakes.load(Ordering::SeqCst) == 0
    }
}

impl Decider for Watching {
    ghost use Rattle.std.proofs.Common.{subst};
    ghost use Rattle.amoebot_state.specs.declared.verdict.Verdict.{Verdict};
    ghost use Rattle.amoebot_state.specs.declared.verdict.Verdict.TheVariants as verdict;

    ghost verdict = { λ _ _. verdict.Idle };

    ghost is_lawful = { λ _ c i change h.
        let Stays : Verdict → Type 0 = λ v.
        elim v [ verdict.Idle ↦ Unit {0} | verdict.Failed _ ↦ Unit {0} | verdict.Change _ ↦ ⊥ ] in
        absurd (subst Stays h.decided tt) };

    fn decide(&self, _found: &Found) -> Verdict {
        self.decisions.fetch_add(1, Ordering::SeqCst);
        if self.open.swap(0, Ordering::SeqCst) != 1 {
            self.mistakes.fetch_add(1, Ordering::SeqCst);
        }
        Verdict::Idle
    }
}

/// The gate before the decisions of this decider.
#[derive(Drop)]
struct Before<'a> {
    decider: &'a Watching,
}

impl Gate for Before<'_> {
    fn claimed(&self, _caller: u8, _turn: u32) {
        if self.decider.open.swap(1, Ordering::SeqCst) != 0 {
            self.decider.mistakes.fetch_add(1, Ordering::SeqCst);
        }
    }
}

/// Makes two turns of the seat. In each the gate is called once, and then the decision is made.
fn decides_behind_the_gate<R: Wait + Abort>(
    rt: &R,
    field: &Field<'_, Watching>,
    lists: &Lists,
    seat: Seat<Watching>,
) -> Result<(), Fail>
    requires of { IsOf field.now seat }
    requires lists { field.now.terms.lists ≡ lists.now }
{
    let decider = field.decider();
    let gate = Before { decider };
    let (seat, first) = turn_of(rt, field, lists, &gate, seat)?;
    assert!(rt; first.mark() == Mark::Idle { place: 0 } && decider.has_seen(1));
    let (_seat, second) = turn_of(rt, field, lists, &gate, seat)?;
    assert!(rt; second.mark() == Mark::Idle { place: 0 } && decider.has_seen(2));
    Ok(())
}

#[test]
fn each_decision_comes_right_behind_the_gate(rt: HostRuntime) -> Result<(), Fail> {
    let alloc = rt.alloc();
    let decider = Watching::new();
    let world = world_in(alloc, 8, 8, &[standing(2, 3, 0)])?;
    let lists = lists_of(alloc, 2, &world, &[&[0]])?;
    let (field, mut seats) = field_of(alloc, &decider, world, &lists)?;
    let seat = seat_of(&field, &mut seats, 0)?;
    decides_behind_the_gate(&rt, &field, &lists, seat)
}

/// A gate that notes its calls, each as two digits: the caller's number, from 1 on, and the turn.
#[derive(Drop)]
struct Noting {
    calls: AtomicU64,
}

impl Gate for Noting {
    fn claimed(&self, caller: u8, turn: u32) {
        let call = 10 * (u64::from(caller) + 1) + u64::from(turn);
        let before = self.calls.load(Ordering::SeqCst);
        let now = before.wrapping_mul(100).wrapping_add(call);
        self.calls.store(now, Ordering::SeqCst);
    }
}

/// Two callers make two turns each, in turn. The gate notes caller and turn of each.
fn notes_each_turn<R: Wait + Abort>(
    rt: &R,
    field: &Field<'_, Idler>,
    lists: &Lists,
    zero: Seat<Idler>,
    one: Seat<Idler>,
) -> Result<(), Fail>
    requires zero { IsOf field.now zero }
    requires one { IsOf field.now one }
    requires lists { field.now.terms.lists ≡ lists.now }
{
    let gate = Noting {
        calls: AtomicU64::new(0),
    };
    let zero = seat_behind(rt, field, lists, &gate, zero)?;
    let one = seat_behind(rt, field, lists, &gate, one)?;
    assert!(rt; gate.calls.load(Ordering::SeqCst) == 1020);
    seat_behind(rt, field, lists, &gate, one)?;
    seat_behind(rt, field, lists, &gate, zero)?;
    assert!(rt; gate.calls.load(Ordering::SeqCst) == 10_202_111);
    Ok(())
}

/// The seat behind its next turn.
fn seat_behind<R: Wait>(
    rt: &R,
    field: &Field<'_, Idler>,
    lists: &Lists,
    gate: &Noting,
    seat: Seat<Idler>,
) -> Result<Seat<Idler>, Fail>
    requires of { IsOf field.now seat }
    requires lists { field.now.terms.lists ≡ lists.now }
    ensures { IfOk result (λ after. IsOf field.now after) }
{
    let (after, _) = turn_of(rt, field, lists, gate, seat)?;
    Ok(after)
}

/// The same with the two seats, which nobody has taken yet.
fn both_are_noted<R: Wait + Abort>(
    rt: &R,
    field: &Field<'_, Idler>,
    lists: &Lists,
    seats: &mut Seats<Idler>,
) -> Result<(), Fail>
    requires of { AreOf field.now seats.old }
    requires lists { field.now.terms.lists ≡ lists.now }
{
    let zero = seat_of(field, seats, 0)?;
    let one = seat_of(field, seats, 1)?;
    notes_each_turn(rt, field, lists, zero, one)
}

#[test]
fn the_gate_is_told_caller_and_turn(rt: HostRuntime) -> Result<(), Fail> {
    let alloc = rt.alloc();
    let bots = [standing(1, 1, 0), standing(6, 6, 0), standing(6, 1, 0)];
    let world = world_in(alloc, 8, 8, &bots)?;
    // No turn has the number of its amoebot, nor has its caller.
    let lists = lists_of(alloc, 2, &world, &[&[2, 2], &[2, 0]])?;
    let (field, mut seats) = field_of(alloc, &Idler, world, &lists)?;
    both_are_noted(&rt, &field, &lists, &mut seats)
}

/// A gate that notes which turns of four callers came, and how many calls there were.
/// It lets other threads go first, so that zones are held for a while.
#[derive(Drop)]
struct Register {
    calls: AtomicU64,
    came: [AtomicU64; 4],
}

impl Gate for Register {
    fn claimed(&self, caller: u8, turn: u32) {
        self.calls.fetch_add(1, Ordering::SeqCst);
        if let Some(turns) = self.came.get(usize::from(caller)) {
            turns.fetch_or(1 << (turn % 64), Ordering::SeqCst);
        }
        for _time in 0..20 {
            thread::yield_now();
        }
    }
}

impl Register {
    fn new() -> Register {
        Register {
            calls: AtomicU64::new(0),
            came: [
                AtomicU64::new(0),
                AtomicU64::new(0),
                AtomicU64::new(0),
                AtomicU64::new(0),
            ],
        }
    }

    /// Whether this turn came.
    fn has(&self, caller: u8, turn: u32) -> bool {
        match self.came.get(usize::from(caller)) {
            Some(turns) => (turns.load(Ordering::SeqCst) >> (turn % 64)) % 2 == 1,
            None => false,
        }
    }

    /// Each turn that is not Busy came, of twelve for each caller, and no other did.
    fn is_of(&self, marks: &Marks) -> bool {
        let mut calls: u64 = 0;
        for caller in 0..marks.callers() {
            if marks.count(caller) != 12 {
                return false;
            }
            for turn in 0..marks.count(caller) {
                let is_busy = matches!(marks.mark(caller, turn), Mark::Busy { .. });
                if self.has(caller, turn) == is_busy {
                    return false;
                }
                calls = calls.saturating_add(u64::from(!is_busy));
            }
        }
        self.calls.load(Ordering::SeqCst) == calls
    }
}

/// In a run of four workers on three amoebots in a row,
/// each turn that is not Busy comes to the gate, and no other does.
fn come_to_the_gate<R: Abort + Threads + Wait + Sync>(
    rt: &R,
    alloc: Global,
    way: Way,
) -> Result<(), Fail> {
    let bots = [standing(2, 3, 0), standing(3, 3, 0), standing(4, 3, 0)];
    let ids: &[&[u16]] = &[&[0, 1, 2], &[1, 2], &[2, 0, 1], &[1]];
    let gate = Register::new();
    let report = report_of(rt, alloc, way, &Marker, &bots, 12, ids, &gate)?;
    let marks = &report.turns;
    assert!(rt; marks.callers() == 4 && gate.is_of(marks));
    Ok(())
}

/// In twenty runs by each way.
#[test]
fn each_turn_that_is_not_busy_comes_to_the_gate_once(rt: HostRuntime) -> Result<(), Fail> {
    for _run in 0..20 {
        for way in WAYS {
            come_to_the_gate(&rt, rt.alloc(), way)?;
        }
    }
    Ok(())
}

/// In both turns the gate is called once, and then the decision is made.
#[test]
fn workers_decide_right_behind_the_gate(rt: HostRuntime) -> Result<(), Fail> {
    for way in WAYS {
        let decider = Watching::new();
        let gate = Before { decider: &decider };
        let bots = [standing(2, 3, 0)];
        report_of(&rt, rt.alloc(), way, &decider, &bots, 2, &[&[0]], &gate)?;
        assert!(rt; decider.has_seen(2));
    }
    Ok(())
}
