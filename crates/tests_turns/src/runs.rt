//! What the workers leave of small worlds, by each way of committing.
ghost use Rattle.std.specs.Prelude.{◌≤◌, length, IfOk, IsSome};
ghost use Rattle.std.specs.List.{All};
ghost use Rattle.amoebot_state.specs.Limits.{most_bots};
ghost use Rattle.amoebot_state.specs.Configs.{bot_at};
ghost use Rattle.amoebot_state.specs.Refusals.{IsBotInRange};
ghost use Rattle.turn_workers.specs.Turns.{AreTurnsOf};

use activation::Gate;
use amoebot_state::{Bot, Decider, World};
use claim_core::{Lists, Report};
use small_worlds::{lists_of, world_of};
use std::alloc::Global;
use std::process::Abort;
use std::sync::Wait;
use std::test::Fail;
use std::thread::Threads;
use ticket_commit::{TicketWorked, work_tickets};
use turn_workers::{Worked, work};

/// How the workers commit: each takes the journal for it, or draws its place.
#[derive(Clone, Copy)]
pub enum Way {
    Journal,
    Tickets,
}

pub const WAYS: [Way; 2] = [Way::Journal, Way::Tickets];

/// What the workers of callers of so many turns with these lists
/// leave of a world of these amoebots.
pub fn report_of<R: Abort + Threads + Wait + Sync, D: Decider, G: Gate>(
    rt: &R,
    alloc: Global,
    way: Way,
    decider: &D,
    bots: &[Bot],
    turns: u32,
    ids: &[&[u16]],
    gate: &G,
) -> Result<Report, Fail>
    requires few { length bots.now ≤ most_bots }
    requires in_range { All IsBotInRange bots.now }
{
    let world = world_of(alloc, bots)?;
    let lists = lists_of(alloc, turns, &world, ids)?;
    report_over(rt, alloc, way, decider, world, &lists, gate)
}

/// What the workers leave of a world.
/// Each turn carries its caller and its number, and has the report's mark.
pub fn report_over<R: Abort + Threads + Wait + Sync, D: Decider, G: Gate>(
    rt: &R,
    alloc: Global,
    way: Way,
    decider: &D,
    world: World,
    lists: &Lists,
    gate: &G,
) -> Result<Report, Fail>
    requires { All (All (λ id. IsSome (bot_at world id))) lists.now.ids }
{
    match way {
        Way::Journal => {
            let worked = work_over(rt, alloc, decider, world, lists, gate)?;
            check_turns(rt, &worked)?;
            let Worked { report, turns: _ } = worked;
            Ok(report)
        }
        Way::Tickets => {
            let worked = tickets_over(rt, alloc, decider, world, lists, gate)?;
            check_tickets(rt, &worked)?;
            let TicketWorked { report, turns: _ } = worked;
            Ok(report)
        }
    }
}

fn work_over<R: Threads + Wait + Sync, D: Decider, G: Gate>(
    rt: &R,
    alloc: Global,
    decider: &D,
    world: World,
    lists: &Lists,
    gate: &G,
) -> Result<Worked, Fail>
    requires { All (All (λ id. IsSome (bot_at world id))) lists.now.ids }
    ensures { IfOk result (λ worked. AreTurnsOf worked.report.turns worked.turns) }
{
    match work(rt, alloc, decider, world, lists, gate) {
        Ok(worked) => Ok(worked),
        Err(_) => Err(Fail::from("no memory")),
    }
}

fn tickets_over<R: Threads + Wait + Sync, D: Decider, G: Gate>(
    rt: &R,
    alloc: Global,
    decider: &D,
    world: World,
    lists: &Lists,
    gate: &G,
) -> Result<TicketWorked, Fail>
    requires { All (All (λ id. IsSome (bot_at world id))) lists.now.ids }
    ensures { IfOk result (λ worked. AreTurnsOf worked.report.turns worked.turns) }
{
    match work_tickets(rt, alloc, decider, world, lists, gate) {
        Ok(worked) => Ok(worked),
        Err(_) => Err(Fail::from("no memory")),
    }
}

/// Checks that each turn carries its caller and its number, and has the report's mark.
fn check_turns(rt: &impl Abort, worked: &Worked) -> Result<(), Fail>
    requires { AreTurnsOf worked.now.report.turns worked.now.turns }
{
    let marks = &worked.report.turns;
    for caller in 0..marks.callers() {
        for turn in 0..marks.count(caller) {
            let answer = worked.turns.turn(caller, turn);
            assert!(rt; (answer.caller(), answer.turn()) == (caller, turn));
            assert!(rt; answer.mark() == marks.mark(caller, turn));
        }
    }
    Ok(())
}

/// Checks the same of turns whose commits drew their places.
fn check_tickets(rt: &impl Abort, worked: &TicketWorked) -> Result<(), Fail>
    requires { AreTurnsOf worked.now.report.turns worked.now.turns }
{
    let marks = &worked.report.turns;
    for caller in 0..marks.callers() {
        for turn in 0..marks.count(caller) {
            let answer = worked.turns.turn(caller, turn);
            assert!(rt; (answer.caller(), answer.turn()) == (caller, turn));
            assert!(rt; answer.mark() == marks.mark(caller, turn));
        }
    }
    Ok(())
}
