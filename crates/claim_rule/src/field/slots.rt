//! What a caller does with the slots that it has taken.
//! The values stay in them: they are read and written in place.
ghost use Rattle.std.specs.Prelude.{◌≡◌, ◌∷◌, false, length};
ghost use Rattle.amoebot_state.specs.declared.cell.Cell.{Cell};
ghost use Rattle.atomic_table.specs.Table.{rest};
ghost use Rattle.claim_core.specs.Turns.{Kept};
ghost use Rattle.claim_rule.specs.{Stands.{journal_slot}, Commits.{HasRoomForEntry, IsPushed}};
ghost use Rattle.claim_rule.specs.Internal.{IsSameSeat};
ghost use Rattle.claim_rule.specs.declared.views.Slot.TheVariants as filling;

use crate::field::Field;
use crate::manner::Manner;
use crate::views::{Slot, View};
use amoebot_state::{Cell, Decider, Entry};
use atomic_table::Seat;

impl<'d, D: Decider, W: Manner> Field<'d, D, W> {
    /// Reads the value in the slot of the slotted cell that was won last.
    pub(crate) fn cell_there(&self, seat: &mut Seat<Slot, View<D>>, slot: usize) -> Cell
        requires table { seat.old.table_id ≡ self.now.table }
        requires won { (x : Cell) × (seat.old.me.1 ≡ (slot, filling.Cell x) ∷ rest seat.old.me.1) }
        ensures same { IsSameSeat seat.old seat.new }
        ensures value { seat.old.me.1 ≡ (slot, filling.Cell result) ∷ rest seat.old.me.1 }
        ensures stays { seat.new.me ≡ seat.old.me }
    {
        match seat.slot_mut(&self.table.shared, slot) {
            Slot::Cell(value) => *value,
            Slot::Journal(_) => unreachable!(),
        }
    }

    /// Puts a value into the slot of the slotted cell that was won last.
    /// It is written only where the slot is stale: else it is there.
    pub(crate) fn put_there(
        &self,
        seat: &mut Seat<Slot, View<D>>,
        slot: usize,
        value: &Cell,
        stale: bool,
    )
        requires table { seat.old.table_id ≡ self.now.table }
        requires won { (x : Cell) × (seat.old.me.1 ≡ (slot, filling.Cell x) ∷ rest seat.old.me.1)
            × (stale ≡ false → x ≡ value.now) }
        ensures same { IsSameSeat seat.old seat.new }
        ensures there { seat.new.me ≡ (seat.old.me.0, (slot, filling.Cell value.now) ∷ rest seat.old.me.1) }
    {
        if stale {
            match seat.slot_mut(&self.table.shared, slot) {
                Slot::Cell(there) => *there = *value,
                Slot::Journal(_) => unreachable!(),
            }
        }
    }
}

impl<'d, D: Decider> Field<'d, D> {
    /// Pushes an entry to the journal, whose slot was taken last.
    /// It returns the number of entries before it.
    pub(crate) fn push_entry(&self, seat: &mut Seat<Slot, View<D>>, entry: Entry) -> u32
        requires table { seat.old.table_id ≡ self.now.table }
        requires taken { (j : Kept) × HasRoomForEntry j
            × (seat.old.me.1 ≡ (journal_slot self.now.terms.world, filling.Journal j) ∷ rest seat.old.me.1) }
        ensures same { IsSameSeat seat.old seat.new }
        ensures pushed { (j : Kept) × (next : Kept)
            × (seat.old.me.1 ≡ (journal_slot self.now.terms.world, filling.Journal j) ∷ rest seat.old.me.1)
            × (seat.new.me
            ≡ (seat.old.me.0, (journal_slot self.now.terms.world, filling.Journal next) ∷ rest seat.old.me.1))
            × IsPushed j entry next × (result ≡ length j.entries) }
    {
        let slot = self.journal_slot();
        match seat.slot_mut(&self.table.shared, slot) {
            Slot::Journal(journal) => {
                let place = journal.entries().len() as u32;
                journal.push(entry);
                place
            }
            Slot::Cell(_) => unreachable!(),
        }
    }
}
