ghost use Rattle.std.specs.Prelude.{◌≡◌};
ghost use Rattle.claim_rule.specs.Tokens.{number_in, doing};

use crate::activation::Room;
use crate::manner::{ByJournal, Manner};
use crate::views::{Slot, View};
use amoebot_state::Decider;
use std::marker::{Model, PhantomData};

/// A caller between two turns.
/// It holds no cell.
/// It is seen as its field's table and what it knows: its caller's number, turn and marks.
#[derive(Drop)]
pub struct Seat<D: Decider, W: Manner = ByJournal> {
    pub(crate) seat: atomic_table::Seat<Slot, View<D>>,
    pub(crate) room: Box<Room>,
    pub(crate) of: PhantomData<W>,
}

impl<D: Decider, W: Manner> Model for Seat<D, W> {
    ghost use Rattle.claim_rule.specs.{Views.{seen}, Tokens.{Token, IsSeat, frame_of}};

    ghost Value = { Token D };

    ghost view = { λ s. record { table = s.seat.table_id; view = seen s.seat.me.0 } };

    ghost invariant = { λ s. IsSeat D.verdict s.seat.me s.room.value.caller s.room.value.turn
        (frame_of s.room.value.area s.room.value.maxes) };
}

impl<D: Decider, W: Manner> Seat<D, W> {
    /// The caller's number.
    pub fn caller(&self) -> u8
        ensures { result ≡ number_in self.now }
    {
        self.room.caller
    }

    /// The turn that the caller makes next; the number of turns of its list, where it has made all.
    pub fn next_turn(&self) -> u32
        ensures { result ≡ (doing self.now).turn }
    {
        self.room.turn
    }
}
