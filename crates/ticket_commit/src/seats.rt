ghost use Rattle.std.specs.{Prelude.{◌≡◌, ◌↔◌, slice_get, slice_set, IfSome, Some, None}, List.{All}};
ghost use Rattle.claim_rule.specs.{Tokens.{number_in}, Seating.{IsFirst}};

use crate::own::OwnList;
use crate::seat::TicketSeat;
use amoebot_state::Decider;
use claim_rule::{ByTicket, Seats};
use std::marker::Model;
use std::mem::replace;

/// The seats of a field on which commits draw their places, one for each caller.
/// Contracts see them as the field's table, what it is about,
/// and the seats by the callers' numbers, each there or given out.
#[derive(Drop)]
pub struct TicketSeats<D: Decider> {
    pub(crate) seats: Seats<D, ByTicket>,
    /// The own lists by the callers' numbers.
    /// Where a seat was given out, its list is with it, and an empty one is in its place.
    pub(crate) own: Vec<OwnList>,
}

impl<D: Decider> Model for TicketSeats<D> {
    ghost use Rattle.claim_rule.specs.Seating.{SeatsOf};
    ghost use Rattle.ticket_commit.specs.Own.{AreOwnLists};

    ghost Value = { SeatsOf D };

    ghost view = { λ s. s.seats };

    ghost invariant = { λ s. AreOwnLists D.verdict s.seats s.own.items };
}

impl<D: Decider> TicketSeats<D> {
    /// The seat of the least number that is there, with its own list;
    /// None where all were given out.
    /// It takes no memory.
    pub fn take(&mut self) -> Option<TicketSeat<D>>
        ensures none { (result ≡ None) ↔ All (λ seat. seat ≡ None) self.old.seats }
        ensures first { IfSome result (λ seat. IsFirst self.old.seats seat
            × (self.new ≡ record self.old { seats = slice_set self.old.seats (number_in seat) None })) }
        ensures of { IfSome result (λ seat.
            (seat.table ≡ self.old.table) × (seat.view.terms ≡ self.old.terms)) }
        ensures stays { result ≡ None → self.new ≡ self.old }
    {
        let seat = self.seats.take()?;
        let none = OwnList::none(*self.own.allocator());
        let own = replace(&mut self.own[usize::from(seat.caller())], none);
        Some(TicketSeat { seat, own })
    }

    /// Takes a seat back that was given out, with its own list. It takes no memory.
    pub fn give(&mut self, seat: TicketSeat<D>)
        requires field { (seat.table ≡ self.old.table) × (seat.view.terms ≡ self.old.terms) }
        requires out { slice_get self.old.seats (number_in seat) ≡ Some None }
        ensures { self.new
            ≡ record self.old { seats = slice_set self.old.seats (number_in seat) (Some seat) } }
    {
        let TicketSeat { seat, own } = seat;
        self.own[usize::from(seat.caller())] = own;
        self.seats.give(seat);
    }
}
