//! The middle part of `run`: workers make the turns of the lists, and it waits for them.

ghost use Rattle.std.specs.{Prelude.{IfOk, IsSome}, List.{All}};
ghost use Rattle.amoebot_state.specs.Configs.{bot_at};
ghost use Rattle.amoebot_run.specs.Parts.{IsMade};

use action_eval::Runner;
use activation::Gate;
use amoebot_state::{NoMemory, World};
use claim_core::{Lists, Report};
use commands::Maker;
use std::alloc::Global;
use std::sync::Wait;
use std::thread::Threads;
use ticket_commit::{TicketTurns, work_tickets};
use turn_workers::{Turns, work};

/// What workers have made: a report, and what became of its turns.
#[derive(Drop)]
pub struct Made {
    pub report: Report,
    pub turns: MadeTurns,
}

/// What became of the turns.
#[derive(Drop)]
pub enum MadeTurns {
    /// Each commit took the journal.
    Journal(Turns),
    /// Each commit drew its place.
    Tickets(TicketTurns),
}

/// Lets workers make the turns of the lists, from the world on.
/// Each of them calls the gate in each turn that claims its whole zone.
pub fn make_turns<R: Threads + Wait + Sync, G: Gate>(
    rt: &R,
    alloc: Global,
    maker: Maker,
    runner: &Runner,
    world: World,
    lists: &Lists,
    gate: &G,
) -> Result<Made, NoMemory>
    requires { All (All (λ id. IsSome (bot_at world id))) lists.now.ids }
    ensures { IfOk result (IsMade maker runner.now world lists.now) }
{
    match maker {
        Maker::Workers => {
            let worked = work(rt, alloc, runner, world, lists, gate)?;
            Ok(Made {
                report: worked.report,
                turns: MadeTurns::Journal(worked.turns),
            })
        }
        Maker::Tickets => {
            let worked = work_tickets(rt, alloc, runner, world, lists, gate)?;
            Ok(Made {
                report: worked.report,
                turns: MadeTurns::Tickets(worked.turns),
            })
        }
    }
}
