//! How the records of callers are dealt to seats, and gathered again.
//! Each is a load of word 0, which changes nothing in the table.
ghost use Rattle.std.specs.Prelude.{◌≡◌, List, [], ◌∷◌};
ghost use Rattle.claim_rule.specs.{Views.{view_of}, Seating.{spent}};
ghost use Rattle.claim_rule.specs.Internal.{dealt, joined_view, left_view};
ghost use Rattle.claim_rule.specs.declared.views.Record.{Record as RecordValue};

use crate::field::Field;
use crate::manner::Manner;
use crate::views::{Slot, View};
use amoebot_state::Decider;
use atomic_table::{Join, Seat as TableSeat, Split};

/// The new seat has the first record. This type is for the proofs alone.
pub struct Deal;

impl<D> Split<View<D>> for Deal {
    ghost left = { left_view };

    ghost right = { dealt };
}

/// The records of the other seat come in behind the own. This type is for the proofs alone.
pub struct Gather;

impl<D> Join<View<D>> for Gather {
    ghost both = { joined_view };

    ghost spent = { spent };
}

impl<'d, D: Decider, W: Manner> Field<'d, D, W> {
    /// A new seat, with the first record.
    pub(crate) fn deal(&self, seat: &mut TableSeat<Slot, View<D>>) -> TableSeat<Slot, View<D>>
        requires field { seat.old.table_id ≡ self.now.table }
        requires some { (r : RecordValue) × (rs : List RecordValue)
            × (seat.old.me.0 ≡ view_of self.now.terms (r ∷ rs)) }
        ensures rest { (seat.new.table_id ≡ seat.old.table_id)
            × (seat.new.me ≡ (left_view seat.old.me.0, seat.old.me.1)) }
        ensures dealt { (result.table_id ≡ seat.old.table_id) × (result.me ≡ (dealt seat.old.me.0, [])) }
    {
        self.table.shared.split_seat::<Deal>(seat)
    }

    /// The records of another seat, which has no slot, come in behind those of this one.
    pub(crate) fn gather(
        &self,
        seat: &mut TableSeat<Slot, View<D>>,
        other: TableSeat<Slot, View<D>>,
    )
        requires field { (seat.old.table_id ≡ self.now.table) × (other.table_id ≡ self.now.table) }
        requires own { (rs : List RecordValue) × (seat.old.me.0 ≡ view_of self.now.terms rs) }
        requires other { (qs : List RecordValue) × (other.me ≡ (view_of self.now.terms qs, [])) }
        ensures { (seat.new.table_id ≡ seat.old.table_id)
            × (seat.new.me ≡ (joined_view seat.old.me.0 other.me.0, seat.old.me.1)) }
    {
        self.table.shared.join_seat::<Gather>(seat, other);
    }
}
