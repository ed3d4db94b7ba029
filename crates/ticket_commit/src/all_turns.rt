ghost use Rattle.std.specs.{Prelude.{IfOk, IsSome}, List.{All}};
ghost use Rattle.amoebot_state.specs.Configs.{bot_at};
ghost use Rattle.claim_core.specs.{Good.{Good}, Reached.{Reached}, Tickets.{TicketReached}};
ghost use Rattle.claim_rule.specs.Views.{setup_for};
ghost use Rattle.caller_workers.specs.Turns.{AreTurnsOf};

use crate::field::TicketField;
use crate::seated::{clear, seat_all};
use crate::ticket_turn::TicketTurn;
use crate::ticket_turns::{ByTickets, activate_all};
use activation::Gate;
use amoebot_state::{Decider, NoMemory, World, has_next, touches_zone};
use caller_workers::{Turns, Worked, copy_marks, without_lists};
use claim_core::{Lists, Marks, Report};
use claim_rule::ended_tickets_are_reached;
use std::alloc::Global;
use std::sync::Wait;
use std::thread::Threads;

/// What became of each turn of each caller, as `activate_ticket` answered that turn.
pub type TicketTurns = Turns<TicketTurn>;

/// What the workers leave: the report, and for each turn what its activation answered.
pub type TicketWorked = Worked<TicketTurn>;

/// Makes the turns of all callers, each caller's in their order by a worker of its own.
/// Commits draw their places, so no worker waits for another one's commit.
/// All memory is taken before the first claim.
pub fn work_tickets<R: Threads + Wait + Sync, D: Decider, G: Gate>(
    rt: &R,
    alloc: Global,
    decider: &D,
    world: World,
    lists: &Lists,
    gate: &G,
) -> Result<TicketWorked, NoMemory>
    requires { All (All (λ id. IsSome (bot_at world id))) lists.now.ids }
    ensures ticketed { IfOk result (λ worked.
        TicketReached (setup_for D.verdict decider.now world lists.now) worked.report) }
    ensures reached { IfOk result (λ worked.
        Reached (setup_for D.verdict decider.now world lists.now) worked.report) }
    ensures good { IfOk result (λ worked. Good (D.verdict decider.now) world lists.now worked.report) }
    ensures turns { IfOk result (λ worked. AreTurnsOf worked.report.turns worked.turns) }
{
    if lists.callers() == 0 {
        return without_lists(alloc, decider, world, lists);
    }
    world.keeps();
    touches_zone(decider);
    has_next(decider);
    ended_tickets_are_reached(decider);
    let mut marks = Marks::make(alloc, lists.callers(), lists.turns())?;
    let room = Vec::with_capacity(alloc, usize::from(lists.callers()))?;
    let (field, mut seats) = TicketField::make(alloc, decider, world, lists)?;
    let mut states = seat_all(alloc, lists.callers(), lists.turns(), &mut seats)?;
    activate_all(rt, &field, lists, gate, states.as_mut_slice());
    let turns = clear(&mut seats, states, room);
    copy_marks(&ByTickets { field: &field }, &mut marks, turns.as_slice());
    let (world, journal) = field.close(seats);
    Ok(Worked {
        report: Report {
            world,
            journal,
            turns: marks,
        },
        turns: Turns::of(turns),
    })
}
