//! How a field begins.
ghost use Rattle.std.specs.{Prelude.{◌≡◌, ◌≤◌, [], map, length, IfOk, IsSome, Ok}, List.{All}};
ghost use Rattle.amoebot_state.specs.Configs.{bot_at};
ghost use Rattle.claim_rule.specs.{Manners.{by_journal, by_ticket}, Views.{field_terms}, Stands.{first_view}};
ghost use Rattle.claim_rule.specs.Opened.{AreFirstSlots, first_seats, first_words};
ghost use Rattle.claim_rule.specs.declared.views.Slot.TheVariants as filling;
ghost use Rattle.claim_core.specs.Cells.{values_of};

use crate::activation::Room;
use crate::field::Field;
use crate::journal_box::JournalBox;
use crate::manner::{ByTicket, Manner};
use crate::seat::Seat;
use crate::seats::Seats;
use crate::views::{Slot, View};
use crate::words::node_word;
use amoebot_state::{Cell, Decider, NoMemory, World};
use atomic_table::Seat as TableSeat;
use claim_core::{Journal, Lists, cells_of};
use std::alloc::Global;
use std::marker::PhantomData;

impl<'d, D: Decider> Field<'d, D> {
    /// A field over a world, for callers with these lists of ids of amoebots of it,
    /// and a seat for each caller.
    /// It takes all memory that the callers and `close` need.
    pub fn make(
        alloc: Global,
        decider: &'d D,
        world: World,
        lists: &'d Lists,
    ) -> Result<(Field<'d, D>, Seats<D>), NoMemory>
        requires some { 1 ≤ length lists.now.ids }
        requires bots { All (All (λ id. IsSome (bot_at world id))) lists.now.ids }
        ensures terms { IfOk result (λ made. made.0.terms ≡ field_terms decider.now world lists.now) }
        ensures seats { IfOk result (λ made. made.1 ≡ first_seats D.verdict made.0) }
        ensures all { IfOk result (λ made. All (λ seat. IsSome seat) made.1.seats) }
    {
        let words = words_at_first(alloc, &world)?;
        let (words, slots) = beside(words, first_slots(alloc, &world, lists))?;
        let (field, rest) = Field::lay_out(alloc, decider, world, lists, words, slots)?;
        let seats = deal_all(alloc, &field, rest, lists.callers());
        beside(field, seats)
    }
}

impl<'d, D: Decider> Field<'d, D, ByTicket> {
    /// The same, of a field whose commits draw their places.
    /// It takes all memory that the callers' steps need; the entries are with the callers.
    pub fn make_tickets(
        alloc: Global,
        decider: &'d D,
        world: World,
        lists: &'d Lists,
    ) -> Result<(Field<'d, D, ByTicket>, Seats<D, ByTicket>), NoMemory>
        requires some { 1 ≤ length lists.now.ids }
        requires bots { All (All (λ id. IsSome (bot_at world id))) lists.now.ids }
        ensures terms { IfOk result (λ made. made.0.terms ≡ field_terms decider.now world lists.now) }
        ensures seats { IfOk result (λ made. made.1 ≡ first_seats D.verdict made.0) }
        ensures all { IfOk result (λ made. All (λ seat. IsSome seat) made.1.seats) }
    {
        let words = ticket_words(alloc, &world)?;
        let (words, slots) = beside(words, ticket_slots(alloc, &world))?;
        let (field, rest) = Field::lay_out(alloc, decider, world, lists, words, slots)?;
        let seats = deal_all(alloc, &field, rest, lists.callers());
        beside(field, seats)
    }
}

/// A part, and the next one where that was made.
/// A caller that puts its part in here owns none at its `?`, which leaves it less to prove.
fn beside<A: Drop, B: Drop>(before: A, next: Result<B, NoMemory>) -> Result<(A, B), NoMemory>
    ensures { IfOk result (λ r. (r.0 ≡ before) × (next ≡ Ok r.1)) }
{
    match next {
        Ok(next) => Ok((before, next)),
        Err(error) => Err(error),
    }
}

/// Deals the records of all callers to seats.
fn deal_all<'d, D: Decider, W: Manner>(
    alloc: Global,
    field: &Field<'d, D, W>,
    mut rest: TableSeat<Slot, View<D>>,
    callers: u8,
) -> Result<Seats<D, W>, NoMemory>
    requires field { rest.table_id ≡ field.now.table }
    requires all { rest.me ≡ (first_view D.verdict field.now.terms, []) }
    requires callers { callers ≡ length field.now.terms.lists.ids }
    ensures { IfOk result (λ seats. seats ≡ first_seats D.verdict field.now) }
{
    let world = field.world();
    let area = world.area();
    let maxes = world.maxes();
    let mut seats = Vec::new(alloc);
    for caller in 0..callers {
        let room = Box::new(alloc, Room::new(caller, area, maxes))?;
        let seat = field.deal(&mut rest);
        seats.push(Some(Seat {
            seat,
            room,
            of: PhantomData,
        }))?;
    }
    Ok(Seats { rest, seats })
}

/// The words at the start: each node's has its occupant, and all others are 0.
fn words_at_first(alloc: Global, world: &World) -> Result<Vec<u64>, NoMemory>
    ensures { IfOk result (λ words. words.items ≡ first_words by_journal world.now) }
{
    let area = world.area();
    let mut words = Vec::new(alloc);
    for number in 0..area.size() {
        let node = area.node(number);
        words.push(node_word(0, world.occupant(node), 0))?;
    }
    for _id in 0..world.bots() {
        words.push(0)?;
    }
    words.push(0)?;
    Ok(words)
}

/// What the slots hold at the start: what each body's cell holds, by the ids, and then the journal,
/// with room for all turns.
fn first_slots(alloc: Global, world: &World, lists: &Lists) -> Result<Vec<Slot>, NoMemory>
    ensures { IfOk result (λ slots. AreFirstSlots world.now lists.now slots.items) }
{
    let mut slots = Vec::new(alloc);
    for id in 0..world.bots() {
        slots.push(Slot::Cell(Cell::Body(*world.bot(id))))?;
    }
    let mut journal = Journal::make(alloc, world)?;
    journal.reserve(alloc, lists.all_turns())?;
    let boxed = JournalBox::make(alloc, journal)?;
    slots.push(Slot::Journal(boxed))?;
    Ok(slots)
}

/// The words at the start where commits draw their places: all are 0.
fn ticket_words(alloc: Global, world: &World) -> Result<Vec<u64>, NoMemory>
    ensures { IfOk result (λ words. words.items ≡ first_words by_ticket world.now) }
{
    let mut words = Vec::new(alloc);
    for _cell in 0..cells_of(world) {
        words.push(0)?;
    }
    words.push(0)?;
    Ok(words)
}

/// What the slots hold at the start where commits draw their places: what each cell holds,
/// by the cells' numbers.
fn ticket_slots(alloc: Global, world: &World) -> Result<Vec<Slot>, NoMemory>
    ensures { IfOk result (λ slots. slots.items ≡ map (λ x. filling.Cell x) (values_of world.now)) }
{
    let area = world.area();
    let mut slots = Vec::new(alloc);
    for number in 0..area.size() {
        let node = area.node(number);
        slots.push(Slot::Cell(Cell::Spot(world.occupant(node))))?;
    }
    for id in 0..world.bots() {
        slots.push(Slot::Cell(Cell::Body(*world.bot(id))))?;
    }
    Ok(slots)
}
