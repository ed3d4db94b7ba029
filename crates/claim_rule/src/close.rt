//! How a field ends.
ghost use Rattle.std.specs.{Prelude.{◌≡◌, ◌+◌, ℕ, List, [], slice_get, Some, IsSome}, List.{All}};
ghost use Rattle.std.specs.Slots.{slots_items, slots_len, IsFull};
ghost use lib.ListN.{get_elem?};
ghost use mathlib.Core.Option.{some};
ghost use Rattle.amoebot_state.specs.{Configs.{Config}, Steps.{Run}};
ghost use Rattle.claim_core.specs.{Soundness.{IsSetup}, Turns.{Kept}};
ghost use Rattle.claim_rule.specs.{Manners.{by_journal, by_ticket}, declared.views.Record.{Record}};
ghost use Rattle.claim_rule.specs.{Views.{setup_of_terms, view_of}, Tokens.{Token}, Seating.{AreOf}};
ghost use Rattle.claim_rule.specs.{Closing.{ClosesAs, LeavesAs, HoldNothing, EndsRight}, Internal.{HaveAll}};
ghost use Rattle.claim_rule.specs.declared.views.Slot.TheVariants as slot;

use crate::field::Field;
use crate::manner::{ByTicket, Manner};
use crate::seat::Seat;
use crate::seats::Seats;
use crate::views::{Slot, View};
use amoebot_state::{Decider, Entry, World};
use atomic_table::{Closed, Seat as TableSeat};
use claim_core::{Journal, cells_of};
use std::alloc::Global;

impl<'d, D: Decider> Field<'d, D> {
    /// The world after all that was committed, and the journal, once all seats are back.
    /// The callers need not have ended: the seats hold nothing, and each of their marks is right.
    /// It takes no memory.
    pub fn close(self, seats: Seats<D>) -> (World, Journal)
        requires field { AreOf self seats }
        requires all { All (λ seat. IsSome seat) seats.seats }
        ensures closes { ClosesAs by_journal D.verdict self.entry.terms seats.seats result.0 result.1 }
        ensures rests { HoldNothing seats.seats }
        ensures right { EndsRight D.verdict self.entry.terms seats.seats result.0 result.1 }
    {
        let Seats { rest, seats } = seats;
        let rest = gather_all(&self, rest, seats);
        let (closed, decider, mut world) = self.give_back(rest);
        let bodies = usize::from(world.bots());
        let journal = journal_of(closed, bodies);
        apply_entries(decider, &mut world, journal.entries());
        (world, journal)
    }
}

impl<'d, D: Decider> Field<'d, D, ByTicket> {
    /// The decider, and the world before the first step, once all seats are back.
    /// The callers need not have ended; the seats hold nothing.
    /// The entries are with the callers, each with its place. It takes no memory.
    pub fn end_tickets(self, seats: Seats<D, ByTicket>) -> (&'d D, World)
        requires field { AreOf self seats }
        requires all { All (λ seat. IsSome seat) seats.seats }
        ensures run { IsSetup (setup_of_terms D.verdict self.entry.terms) }
        ensures leaves { LeavesAs by_ticket D.verdict self.entry.terms seats.seats }
        ensures rests { HoldNothing seats.seats }
        ensures decider { result.0.now ≡ self.entry.terms.decider }
        ensures world { result.1 ≡ self.entry.terms.world }
    {
        let Seats { rest, seats } = seats;
        let rest = gather_all(&self, rest, seats);
        let (closed, decider, world) = self.give_back(rest);
        let count = cells_of(&world);
        drop_slots(closed, count);
        (decider, world)
    }
}

/// All records come back to the first seat.
pub(crate) fn gather_all<'d, D: Decider, W: Manner>(
    field: &Field<'d, D, W>,
    mut rest: TableSeat<Slot, View<D>>,
    mut seats: Vec<Option<Seat<D, W>>>,
) -> TableSeat<Slot, View<D>>
    requires field { (rest.table_id ≡ field.now.table) × (rest.me ≡ (view_of field.now.terms [], [])) }
    requires seats { (c : ℕ) (t : Token D) → slice_get seats.items c ≡ Some (Some t)
        → (t.table ≡ field.now.table) × (t.view.terms ≡ Some field.now.terms) }
    ensures { (result.table_id ≡ field.now.table)
        × ((rs : List Record) × (result.me ≡ (view_of field.now.terms rs, [])) × HaveAll seats.items rs) }
{
    while let Some(place) = seats.pop() {
        if let Some(seat) = place {
            field.gather(&mut rest, seat.seat);
        }
    }
    rest
}

/// The journal in the slot behind those of so many bodies. The slots are given back.
fn journal_of(mut closed: Closed<Slot, Global>, bodies: usize) -> Journal
    requires count { slots_len closed.slots ≡ bodies + 1 }
    requires full { IsFull closed.slots }
    requires journal { (kept : Kept)
        × (get_elem? (slots_items closed.slots) bodies ≡ some (slot.Journal kept)) }
    ensures { get_elem? (slots_items closed.slots) bodies ≡ some (slot.Journal result) }
{
    let last = closed.take(bodies);
    for body in 0..bodies {
        drop(closed.take(body));
    }
    closed.free();
    match last {
        Slot::Journal(journal) => journal.into_journal(),
        _ => unreachable!(),
    }
}

/// Gives the slots back, which are so many.
fn drop_slots(mut closed: Closed<Slot, Global>, count: usize)
    requires count { slots_len closed.slots ≡ count }
    requires full { IsFull closed.slots }
{
    for slot in 0..count {
        drop(closed.take(slot));
    }
    closed.free();
}

/// Makes the world the last one of a run of these entries.
fn apply_entries<D: Decider>(decider: &D, world: &mut World, entries: &[Entry])
    requires { (last : Config) × Run (D.verdict decider.now) world.old entries.now last }
    ensures { Run (D.verdict decider.now) world.old entries.now world.new }
{
    for entry in entries {
        world.apply(&entry.patch);
    }
}
