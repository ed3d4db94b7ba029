ghost use Rattle.std.specs.Prelude.{◌≡◌};
ghost use Rattle.claim_rule.specs.Tokens.{number_in, doing};

use crate::own::OwnList;
use amoebot_state::Decider;
use claim_rule::{ByTicket, Seat};
use std::marker::Model;

/// A caller between two turns, with its own list: the entries that it committed,
/// each with the place that it drew, and room for those of its other turns.
/// It is seen as its field's table and what it knows: its caller's number, turn, marks and entries.
#[derive(Drop)]
pub struct TicketSeat<D: Decider> {
    pub(crate) seat: Seat<D, ByTicket>,
    pub(crate) own: OwnList,
}

impl<D: Decider> Model for TicketSeat<D> {
    ghost use Rattle.claim_rule.specs.Tokens.{Token};
    ghost use Rattle.ticket_commit.specs.Own.{KeepsOwn};

    ghost Value = { Token D };

    ghost view = { λ s. s.seat };

    ghost invariant = { λ s. KeepsOwn D.verdict s.seat s.own.entries s.own.room };
}

impl<D: Decider> TicketSeat<D> {
    /// The caller's number.
    pub fn caller(&self) -> u8
        ensures { result ≡ number_in self.now }
    {
        self.seat.caller()
    }

    /// The turn that the caller makes next; the number of turns of its list, where it has made all.
    pub fn next_turn(&self) -> u32
        ensures { result ≡ (doing self.now).turn }
    {
        self.seat.next_turn()
    }
}
