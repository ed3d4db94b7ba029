ghost use Rattle.std.specs.Prelude.{◌≡◌, ◌<◌};
ghost use Rattle.claim_rule.specs.{Plays.{about, bot_in}, Tokens.{IsOf, doing}};
ghost use Rattle.node_claims.specs.Answers.{HasAnswered, caller_of, turn_of, mark_of};

use crate::field::TicketField;
use crate::seat::TicketSeat;
use activation::Gate;
use amoebot_state::{Decider, Verdict};
use claim_core::Mark;
use claim_rule::{ByTicket, draw};
use node_claims::{Turn, place, release, release_settled, try_claim};
use std::marker::Model;

/// What became of a turn whose commit draws its place.
/// `activate_ticket` alone makes it, of steps on the words of a field.
#[derive(Drop)]
pub struct TicketTurn {
    answer: Turn<ByTicket>,
}

impl Model for TicketTurn {
    ghost use Rattle.claim_rule.specs.declared.manner.ByTicket.{ByTicket};
    ghost use Rattle.node_claims.specs.declared.turn.Turn.{Turn};

    ghost Value = { Turn ByTicket };

    ghost view = { λ t. t.answer };
}

impl TicketTurn {
    /// The caller whose turn it was.
    pub fn caller(&self) -> u8
        ensures { result ≡ caller_of self.now }
    {
        self.answer.caller()
    }

    /// Its number among the caller's turns.
    pub fn turn(&self) -> u32
        ensures { result ≡ turn_of self.now }
    {
        self.answer.turn()
    }

    /// Its mark.
    pub fn mark(&self) -> Mark
        ensures { result ≡ mark_of self.now }
    {
        self.answer.mark()
    }
}

/// The caller's next turn, whole: it claims the zone of its amoebot, calls the gate,
/// decides on what it found, draws the place of a change and keeps the entry with that place
/// in its own list, and frees what it holds.
/// It waits for nobody and takes no memory.
pub fn activate_ticket<D: Decider, G: Gate>(
    field: &TicketField<'_, D>,
    seat: TicketSeat<D>,
    gate: &G,
    turn: u32,
    bot: u16,
) -> (TicketSeat<D>, TicketTurn)
    requires field { IsOf field.now seat }
    requires turn { (turn ≡ (doing seat).turn) × (turn < (about D.verdict seat.view).lists.turns) }
    requires bot { bot ≡ bot_in D.verdict seat.view }
    ensures answer { HasAnswered D.verdict seat result.0 result.1 }
    ensures field { IsOf field.now result.0 }
{
    let TicketSeat { seat, mut own } = seat;
    let caller = seat.caller();
    let mut claimed = match try_claim(seat, &field.field, turn, bot) {
        Ok(claimed) => claimed,
        Err((seat, refused)) => {
            let answer = Turn::Busy(refused);
            return (TicketSeat { seat, own }, TicketTurn { answer });
        }
    };
    gate.claimed(caller, turn);
    match field.field.decider().decide(claimed.found()) {
        Verdict::Change(change) => {
            let (settled, receipt) = draw(claimed, &field.field, &change);
            own.push(receipt.place(), caller, turn, bot, &change);
            let seat = release_settled(settled, &field.field);
            let answer = Turn::Done(receipt);
            (TicketSeat { seat, own }, TicketTurn { answer })
        }
        Verdict::Idle => {
            let seen = place(&mut claimed, &field.field);
            let seat = release(claimed, &field.field);
            let answer = Turn::Idle(seen);
            (TicketSeat { seat, own }, TicketTurn { answer })
        }
        Verdict::Failed(failure) => {
            let seen = place(&mut claimed, &field.field);
            let seat = release(claimed, &field.field);
            let answer = Turn::Failed(failure, seen);
            (TicketSeat { seat, own }, TicketTurn { answer })
        }
    }
}
