//! How a field ends on which commits draw their places.
ghost use Rattle.std.specs.{Prelude.{IsSome, map}, List.{All}};
ghost use Rattle.claim_core.specs.Merges.{IsMerge};
ghost use Rattle.claim_rule.specs.{Manners.{by_ticket}, Seating.{AreOf}};
ghost use Rattle.claim_rule.specs.Closing.{ClosesAs, HoldNothing, EndsRight};
ghost use Rattle.ticket_commit.specs.Own.{own_at_seat};

use crate::field::TicketField;
use crate::merge::merge;
use crate::seats::TicketSeats;
use amoebot_state::{Decider, World};
use claim_core::Journal;

impl<'d, D: Decider> TicketField<'d, D> {
    /// The world after all that was committed, and the journal, once all seats are back:
    /// the merge of the own lists by place.
    /// The callers need not have ended: the seats hold nothing, and each of their marks is right.
    /// It takes no memory.
    pub fn close(self, seats: TicketSeats<D>) -> (World, Journal)
        requires field { AreOf self seats }
        requires all { All (λ seat. IsSome seat) seats.seats }
        ensures closes { ClosesAs by_ticket D.verdict self.entry.terms seats.seats result.0 result.1 }
        ensures rests { HoldNothing seats.seats }
        ensures merged { IsMerge (map own_at_seat seats.seats) result.1.entries }
        ensures right { EndsRight D.verdict self.entry.terms seats.seats result.0 result.1 }
    {
        let TicketField { field, mut journal } = self;
        let TicketSeats { seats, mut own } = seats;
        let (decider, mut world) = field.end_tickets(seats);
        merge(decider, &mut world, &mut journal, own.as_mut_slice());
        (world, journal)
    }
}
