//! Turns that `activate_ticket` makes, as the workers ask for them.
ghost use Rattle.std.specs.Prelude.{◌≡◌, length};
ghost use Rattle.caller_workers.specs.WorkerStates.{HaveMade, IsNextTurn, IsTurnMade};

use crate::field::TicketField;
use crate::seat::TicketSeat;
use crate::ticket_turn::{TicketTurn, activate_ticket};
use activation::Gate;
use amoebot_state::Decider;
use caller_workers::{TurnMaker, WorkerState, make_all};
use claim_core::{Lists, Mark};
use claim_rule::ByTicket;
use std::sync::Wait;
use std::thread::Threads;

/// Turns on a field on which commits draw their places: a seat is its token,
/// and an answer what became of the turn.
#[derive(Drop)]
pub struct ByTickets<'a, 'd, D: Decider> {
    pub field: &'a TicketField<'d, D>,
}

impl<'a, 'd, D: Decider> TurnMaker<D, ByTicket> for ByTickets<'a, 'd, D> {
    type Seat = TicketSeat<D>;

    type Answer = TicketTurn;

    ghost field = { λ by. by.field.now };

    ghost token = { λ seat. seat };

    ghost told = { λ turn. turn };

    fn mark(&self, answer: &TicketTurn) -> Mark {
        answer.mark()
    }
}

/// Makes the turns of all callers, each caller's in their order by a worker of its own.
pub(crate) fn activate_all<R: Threads + Wait + Sync, D: Decider, G: Gate>(
    rt: &R,
    field: &TicketField<'_, D>,
    lists: &Lists,
    gate: &G,
    states: &mut [WorkerState<TicketSeat<D>, TicketTurn>],
)
    requires few { length states.old ≡ length lists.now.ids }
    requires lists { field.now.terms.lists ≡ lists.now }
    requires before { HaveMade D.verdict (λ seat. seat) (λ turn. turn) field.now 0 states.old }
    ensures count { length states.new ≡ length states.old }
    ensures after { HaveMade D.verdict (λ seat. seat) (λ turn. turn) field.now lists.now.turns states.new }
{
    let by = ByTickets { field };
    let make = |turn: u32, bot: u16, seat: TicketSeat<D>|
        requires { IsNextTurn D.verdict (λ seat. seat) field.now turn bot seat }
        ensures { IsTurnMade D.verdict (λ seat. seat) (λ turn. turn) field.entry.now seat result }
    { activate_ticket(field, seat, gate, turn, bot) };
    make_all(rt, &by, &make, lists, states);
}
