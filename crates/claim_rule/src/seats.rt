ghost use Rattle.std.specs.Prelude.{◌≡◌, ◌≢◌, ◌↔◌, ◌<◌, ℕ, length, slice_get, slice_set, IfSome, Some, None};
ghost use Rattle.std.specs.List.{All};
ghost use Rattle.claim_rule.specs.{Tokens.{number_in}, Seating.{IsFirst}};

use crate::manner::{ByJournal, Manner};
use crate::seat::Seat;
use crate::views::{Slot, View};
use amoebot_state::Decider;
use std::marker::Model;

/// The seats of a field, one for each caller.
/// Contracts see them as the field's table, what it is about,
/// and the seats by the callers' numbers, each there or given out.
#[derive(Drop)]
pub struct Seats<D: Decider, W: Manner = ByJournal> {
    pub(crate) rest: atomic_table::Seat<Slot, View<D>>,
    pub(crate) seats: Vec<Option<Seat<D, W>>>,
}

impl<D: Decider, W: Manner> Model for Seats<D, W> {
    ghost use Rattle.claim_rule.specs.Seating.{SeatsOf, AreSeats};

    ghost Value = { SeatsOf D };

    ghost view = { λ s.
        record { table = s.rest.table_id; terms = s.rest.me.0.terms; seats = s.seats.items } };

    ghost invariant = { λ s. AreSeats s.rest.me s.rest.table_id s.seats.items };
}

impl<D: Decider, W: Manner> Seats<D, W> {
    /// The seat of the least number that is there; None where all were given out.
    pub fn take(&mut self) -> Option<Seat<D, W>>
        ensures none { (result ≡ None) ↔ All (λ seat. seat ≡ None) self.old.seats }
        ensures first { IfSome result (λ seat. IsFirst self.old.seats seat
            × (self.new ≡ record self.old { seats = slice_set self.old.seats (number_in seat) None })) }
        ensures of { IfSome result (λ seat.
            (seat.table ≡ self.old.table) × (seat.view.terms ≡ self.old.terms)) }
        ensures stays { result ≡ None → self.new ≡ self.old }
    {
        let place = first_there(self.seats.as_slice())?;
        self.seats[place].take()
    }

    /// Takes a seat back that was given out.
    pub fn give(&mut self, seat: Seat<D, W>)
        requires field { (seat.table ≡ self.old.table) × (seat.view.terms ≡ self.old.terms) }
        requires out { slice_get self.old.seats (number_in seat) ≡ Some None }
        ensures { self.new
            ≡ record self.old { seats = slice_set self.old.seats (number_in seat) (Some seat) } }
    {
        let place = usize::from(seat.room.caller);
        self.seats[place] = Some(seat);
    }
}

/// The place of the first seat that is there.
fn first_there<D: Decider, W: Manner>(seats: &[Option<Seat<D, W>>]) -> Option<usize>
    ensures none { (result ≡ None) ↔ All (λ seat. seat ≡ None) seats.now }
    ensures first { IfSome result (λ place.
        (slice_get seats.now place ≢ Some None) × (place < length seats.now)
        × ((c : ℕ) → c < place → slice_get seats.now c ≡ Some None)) }
{
    for (place, seat) in seats.iter().enumerate() {
        if seat.is_some() {
            return Some(place);
        }
    }
    None
}
