//! A field on which commits draw their places, and its seats: before the first turn,
//! and one turn after another.
ghost use Rattle.std.specs.Prelude.{◌≡◌, ◌≤◌, length, map, is_some, slice_set, None, IfOk, IsSome, OnOk};
ghost use Rattle.std.specs.List.{All};
ghost use Rattle.amoebot_state.specs.Configs.{bot_at};
ghost use Rattle.claim_rule.specs.Seating.{AreOf, IsFirst};
ghost use Rattle.claim_rule.specs.Tokens.{IsOf, number_in};

use crate::fixtures::{Counter, are_entries};
use crate::machine::{has_mark, is_left, machine_leaves};
use crate::turns::{IN_TURN, are_marked};
use amoebot_state::World;
use claim_core::{Journal, Lists, Mark, Marks};
use small_worlds::{Marker, lists_of, standing, world_in};
use std::alloc::Global;
use std::process::Abort;
use std::test::Fail;
use ticket_commit::{TicketField, TicketSeat, TicketSeats, activate_ticket};

/// A field over the world, with a seat for each caller.
fn field_of<'d>(
    alloc: Global,
    world: World,
    lists: &'d Lists,
) -> Result<(TicketField<'d, Marker>, TicketSeats<Marker>), Fail>
    requires some { 1 ≤ length lists.now.ids }
    requires bots { All (All (λ id. IsSome (bot_at world id))) lists.now.ids }
    ensures lists { IfOk result (λ made. made.0.terms.lists ≡ lists.now) }
    ensures of { IfOk result (λ made. AreOf made.0 made.1) }
    ensures all { IfOk result (λ made. All (λ seat. IsSome seat) made.1.seats) }
{
    match TicketField::make(alloc, &Marker, world, lists) {
        Ok(made) => Ok(made),
        Err(_) => Err(Fail::from("no field")),
    }
}

/// The world of four amoebots that are far from each other.
fn four_in(alloc: Global) -> Result<World, Fail> {
    let bots = [
        standing(1, 1, 0),
        standing(1, 6, 0),
        standing(6, 1, 0),
        standing(6, 6, 0),
    ];
    world_in(alloc, 8, 8, &bots)
}

#[test]
fn a_field_is_closed_before_its_first_turn(rt: HostRuntime) -> Result<(), Fail> {
    let world = four_in(rt.alloc())?;
    let lists = lists_of(rt.alloc(), 2, &world, &[&[0, 1], &[2, 3]])?;
    let (field, seats) = field_of(rt.alloc(), world, &lists)?;
    let (last, journal) = field.close(seats);
    assert!(rt; journal.entries().is_empty() && last.same(journal.first()));
    Ok(())
}

/// Whether each of four calls gives a seat.
fn seats_given(seats: &mut TicketSeats<Marker>) -> [bool; 4] {
    [
        seats.take().is_some(),
        seats.take().is_some(),
        seats.take().is_some(),
        seats.take().is_some(),
    ]
}

#[test]
fn each_seat_is_given_once(rt: HostRuntime) -> Result<(), Fail> {
    let world = four_in(rt.alloc())?;
    let lists = lists_of(rt.alloc(), 2, &world, &[&[0, 1], &[2, 3]])?;
    let (_field, mut seats) = field_of(rt.alloc(), world, &lists)?;
    let given = seats_given(&mut seats);
    assert!(rt; given == [true, true, false, false]);
    Ok(())
}

/// The seat of the least number that is there, which is to be this caller's, before its first turn.
fn seat_of(
    field: &TicketField<'_, Marker>,
    seats: &mut TicketSeats<Marker>,
    caller: u8,
) -> Result<TicketSeat<Marker>, Fail>
    requires { AreOf field.now seats.old }
    ensures rest { IfOk result (λ seat. AreOf field.now seats.new) }
    ensures seat { IfOk result (λ seat. IsOf field.now seat) }
    ensures first { IfOk result (λ seat. IsFirst seats.old.seats seat
        × (seats.new ≡ record seats.old { seats = slice_set seats.old.seats (number_in seat) None })) }
{
    match seats.take() {
        None => Err(Fail::from("no seat is left")),
        Some(seat) => {
            if seat.caller() != caller || seat.next_turn() != 0 {
                return Err(Fail::from("another seat"));
            }
            Ok(seat)
        }
    }
}

/// Makes the seat's next turn, which has this mark, as the machine has.
fn marked(
    rt: &impl Abort,
    field: &TicketField<'_, Marker>,
    lists: &Lists,
    expected: &Marks,
    gate: &Counter,
    seat: TicketSeat<Marker>,
    mark: Mark,
) -> Result<TicketSeat<Marker>, Fail>
    requires of { IsOf field.now seat }
    requires lists { field.now.terms.lists ≡ lists.now }
    ensures of { IfOk result (λ after. IsOf field.now after) }
    ensures same { IfOk result (λ after. number_in after ≡ number_in seat) }
{
    let turn = seat.next_turn();
    let caller = seat.caller();
    if caller >= lists.callers() || turn >= lists.turns() {
        return Err(Fail::from("no turn is left"));
    }
    let (after, answer) = activate_ticket(field, seat, gate, turn, lists.bot(caller, turn));
    assert!(rt; answer.caller() == caller && answer.turn() == turn && answer.mark() == mark);
    has_mark(rt, expected, caller, turn, mark)?;
    Ok(after)
}

/// Each of the two seats makes its next turn, with these marks.
fn one_each(
    rt: &impl Abort,
    field: &TicketField<'_, Marker>,
    lists: &Lists,
    expected: &Marks,
    gate: &Counter,
    seats: (TicketSeat<Marker>, TicketSeat<Marker>),
    marks: (Mark, Mark),
) -> Result<(TicketSeat<Marker>, TicketSeat<Marker>), Fail>
    requires first { IsOf field.now seats.0 }
    requires second { IsOf field.now seats.1 }
    requires lists { field.now.terms.lists ≡ lists.now }
    ensures first { IfOk result (λ after. IsOf field.now after.0 × (number_in after.0 ≡ number_in seats.0)) }
    ensures second { IfOk result (λ after. IsOf field.now after.1 × (number_in after.1 ≡ number_in seats.1)) }
{
    let (first, second) = seats;
    let first = marked(rt, field, lists, expected, gate, first, marks.0)?;
    let second = marked(rt, field, lists, expected, gate, second, marks.1)?;
    Ok((first, second))
}

/// One turn after another: both commit, and then both are idle. The gate is called in each.
fn in_turn(
    rt: &impl Abort,
    field: &TicketField<'_, Marker>,
    lists: &Lists,
    expected: &Marks,
    zero: TicketSeat<Marker>,
    one: TicketSeat<Marker>,
) -> Result<(TicketSeat<Marker>, TicketSeat<Marker>), Fail>
    requires zero { IsOf field.now zero }
    requires one { IsOf field.now one }
    requires lists { field.now.terms.lists ≡ lists.now }
    ensures zero { IfOk result (λ after. IsOf field.now after.0 × (number_in after.0 ≡ number_in zero)) }
    ensures one { IfOk result (λ after. IsOf field.now after.1 × (number_in after.1 ≡ number_in one)) }
{
    let gate = Counter::new();
    let done = (Mark::Done { place: 0 }, Mark::Done { place: 1 });
    let idle = (Mark::Idle { place: 2 }, Mark::Idle { place: 2 });
    let seats = one_each(rt, field, lists, expected, &gate, (zero, one), done)?;
    let (zero, one) = one_each(rt, field, lists, expected, &gate, seats, idle)?;
    assert!(rt; gate.calls() == 4);
    assert!(rt; zero.next_turn() == 2 && one.next_turn() == 2);
    Ok((zero, one))
}

/// Both seats are taken, make their turns, and are given back.
fn with_both_seats(
    rt: &impl Abort,
    field: &TicketField<'_, Marker>,
    lists: &Lists,
    expected: &Marks,
    seats: &mut TicketSeats<Marker>,
) -> Result<(), Fail>
    requires of { AreOf field.now seats.old }
    requires lists { field.now.terms.lists ≡ lists.now }
    ensures of { OnOk result (AreOf field.now seats.new) }
    ensures there { OnOk result (map is_some seats.new.seats ≡ map is_some seats.old.seats) }
{
    let zero = seat_of(field, seats, 0)?;
    let one = seat_of(field, seats, 1)?;
    let (zero_after, one_after) = in_turn(rt, field, lists, expected, zero, one)?;
    seats.give(one_after);
    seats.give(zero_after);
    Ok(())
}

/// What the field leaves once both callers have made their turns.
fn closed(
    rt: &impl Abort,
    field: TicketField<'_, Marker>,
    lists: &Lists,
    expected: &Marks,
    mut seats: TicketSeats<Marker>,
) -> Result<(World, Journal), Fail>
    requires of { AreOf field seats }
    requires lists { field.terms.lists ≡ lists.now }
    requires all { All (λ seat. IsSome seat) seats.seats }
{
    with_both_seats(rt, &field, lists, expected, &mut seats)?;
    Ok(field.close(seats))
}

/// What a field over the world leaves once both callers have made their turns.
fn left_in_turn(
    rt: &impl Abort,
    alloc: Global,
    world: World,
    lists: &Lists,
    expected: &Marks,
) -> Result<(World, Journal), Fail>
    requires some { 1 ≤ length lists.now.ids }
    requires bots { All (All (λ id. IsSome (bot_at world id))) lists.now.ids }
{
    let (field, seats) = field_of(alloc, world, lists)?;
    closed(rt, field, lists, expected, seats)
}

/// Two neighbours end with variable 0 at 1, and with two entries,
/// as the machine leaves them where the journal is taken.
#[test]
fn two_callers_draw_one_after_the_other_and_then_are_idle(rt: HostRuntime) -> Result<(), Fail> {
    let alloc = rt.alloc();
    let world = world_in(alloc, 8, 8, &[standing(2, 3, 0), standing(3, 3, 0)])?;
    let lists = lists_of(alloc, 2, &world, &[&[0], &[1]])?;
    let report = machine_leaves(alloc, &Marker, &world, &lists, &IN_TURN)?;
    let (last, journal) = left_in_turn(&rt, alloc, world, &lists, &report.turns)?;
    is_left(&rt, &report, &last, &journal);
    are_entries(&rt, &journal, &[(0, 0, 0), (1, 0, 1)]);
    are_marked(&rt, alloc, &last)
}
