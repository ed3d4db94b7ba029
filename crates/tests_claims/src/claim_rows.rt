ghost use Rattle.std.specs.Prelude.{◌≡◌, ◌≤◌, length, map, is_some, IfOk, IsSome, OnOk};
ghost use Rattle.std.specs.List.{All};
ghost use Rattle.amoebot_state.specs.Configs.{bot_at};
ghost use Rattle.claim_rule.specs.Seating.{AreOf};
ghost use Rattle.claim_rule.specs.Tokens.{IsOf, number_in};

use crate::field_fixtures::{begun, claim, claimed_whole, freed, none_left, whole, won};
use crate::fields::{field_of, seat_of};
use amoebot_state::{CellName, World};
use claim_core::{Journal, Lists};
use claim_rule::{Claimed, Field, Held, Refused, Seat, Seats};
use small_worlds::{Idler, lists_of, standing, world_in};
use std::alloc::Global;
use std::process::Abort;
use std::test::Fail;
use tri_lattice::Node;

/// The zone of amoebot 0 at (2, 3), beside amoebot 1 at (3, 3).
static ZONE_0: [CellName; 9] = [
    CellName::Body(0),
    CellName::Spot(Node { x: 2, y: 3 }),
    CellName::Spot(Node { x: 3, y: 3 }),
    CellName::Spot(Node { x: 2, y: 4 }),
    CellName::Spot(Node { x: 1, y: 4 }),
    CellName::Spot(Node { x: 1, y: 3 }),
    CellName::Spot(Node { x: 2, y: 2 }),
    CellName::Spot(Node { x: 3, y: 2 }),
    CellName::Body(1),
];

/// The zone of the other one.
static ZONE_1: [CellName; 9] = [
    CellName::Body(1),
    CellName::Spot(Node { x: 3, y: 3 }),
    CellName::Spot(Node { x: 4, y: 3 }),
    CellName::Spot(Node { x: 3, y: 4 }),
    CellName::Spot(Node { x: 2, y: 4 }),
    CellName::Spot(Node { x: 2, y: 3 }),
    CellName::Spot(Node { x: 3, y: 2 }),
    CellName::Spot(Node { x: 4, y: 2 }),
    CellName::Body(0),
];

/// The seat's next turn, the first one, is refused at this cell,
/// which caller 0 holds for its first turn.
fn refused_at(
    rt: &impl Abort,
    field: &Field<'_, Idler>,
    lists: &Lists,
    seat: Seat<Idler>,
    cell: CellName,
) -> Result<Seat<Idler>, Fail>
    requires of { IsOf field.now seat }
    requires lists { field.now.terms.lists ≡ lists.now }
    ensures of { IfOk result (λ after. IsOf field.now after) }
    ensures same { IfOk result (λ after. number_in after ≡ number_in seat) }
{
    match claim(field, lists, seat)? {
        Ok(_) => Err(Fail::from("no cell is held")),
        Err((seat, refused)) => {
            is_refusal(rt, &refused, cell);
            assert!(rt; seat.caller() == 1 && seat.next_turn() == 1);
            Ok(seat)
        }
    }
}

/// Caller 1 was refused in its first turn at this cell, by caller 0 in its first turn.
fn is_refusal(rt: &impl Abort, refused: &Refused, cell: CellName) {
    assert!(rt; refused.caller() == 1 && refused.turn() == 0 && refused.place() == 0);
    assert!(rt; refused.cell() == cell);
    assert!(rt; (refused.by_caller(), refused.by_turn(), refused.by_bot()) == (0, 0, 0));
}

/// What a claim of amoebot 0 found.
fn is_found(rt: &impl Abort, claimed: &Claimed<Idler>) {
    let found = claimed.found();
    assert!(rt; found.bot() == 0);
    assert!(rt; *found.own() == standing(2, 3, 0));
    assert!(rt; found.body(1).copied() == Some(standing(3, 3, 0)));
}

/// Caller 0 claims its zone, caller 1 is refused, and caller 0 releases its zone.
fn zero_goes_first(
    rt: &impl Abort,
    field: &Field<'_, Idler>,
    lists: &Lists,
    zero: Seat<Idler>,
    one: Seat<Idler>,
) -> Result<(Seat<Idler>, Seat<Idler>), Fail>
    requires zero { IsOf field.now zero }
    requires one { IsOf field.now one }
    requires lists { field.now.terms.lists ≡ lists.now }
    ensures zero { IfOk result (λ after. IsOf field.now after.0 × (number_in after.0 ≡ number_in zero)) }
    ensures one { IfOk result (λ after. IsOf field.now after.1 × (number_in after.1 ≡ number_in one)) }
{
    let claimed = claimed_whole(rt, field, lists, zero, &ZONE_0)?;
    is_found(rt, &claimed);
    let one = refused_at(rt, field, lists, one, CellName::Body(1))?;
    let zero = freed(rt, field, claimed, 0, 0);
    assert!(rt; zero.caller() == 0 && zero.next_turn() == 1);
    Ok((zero, one))
}

/// Caller 1 claims its zone in its second turn, and releases it.
fn one_follows(
    rt: &impl Abort,
    field: &Field<'_, Idler>,
    lists: &Lists,
    one: Seat<Idler>,
) -> Result<Seat<Idler>, Fail>
    requires one { IsOf field.now one }
    requires lists { field.now.terms.lists ≡ lists.now }
    ensures one { IfOk result (λ after. IsOf field.now after × (number_in after ≡ number_in one)) }
{
    let claimed = claimed_whole(rt, field, lists, one, &ZONE_1)?;
    assert!(rt; claimed.found().body(0).copied() == Some(standing(2, 3, 0)));
    let one = freed(rt, field, claimed, 1, 1);
    assert!(rt; one.caller() == 1 && one.next_turn() == 2);
    Ok(one)
}

/// Caller 1 is refused while caller 0 holds its zone, and claims its own in its next turn,
/// once caller 0 has released it.
fn takes_turns(
    rt: &impl Abort,
    field: &Field<'_, Idler>,
    lists: &Lists,
    zero: Seat<Idler>,
    one: Seat<Idler>,
) -> Result<(Seat<Idler>, Seat<Idler>), Fail>
    requires zero { IsOf field.now zero }
    requires one { IsOf field.now one }
    requires lists { field.now.terms.lists ≡ lists.now }
    ensures zero { IfOk result (λ after. IsOf field.now after.0 × (number_in after.0 ≡ number_in zero)) }
    ensures one { IfOk result (λ after. IsOf field.now after.1 × (number_in after.1 ≡ number_in one)) }
{
    let (zero, one) = zero_goes_first(rt, field, lists, zero, one)?;
    Ok((zero, one_follows(rt, field, lists, one)?))
}

/// The two seats are taken, make their turns, and are given back.
fn with_both_seats(
    rt: &impl Abort,
    field: &Field<'_, Idler>,
    lists: &Lists,
    seats: &mut Seats<Idler>,
) -> Result<(), Fail>
    requires of { AreOf field.now seats.old }
    requires lists { field.now.terms.lists ≡ lists.now }
    ensures of { OnOk result (AreOf field.now seats.new) }
    ensures there { OnOk result (map is_some seats.new.seats ≡ map is_some seats.old.seats) }
{
    let zero = seat_of(field, seats, 0)?;
    let one = seat_of(field, seats, 1)?;
    none_left(seats)?;
    let (zero_after, one_after) = takes_turns(rt, field, lists, zero, one)?;
    seats.give(one_after);
    seats.give(zero_after);
    Ok(())
}

/// What the field leaves after those turns.
fn closed(
    rt: &impl Abort,
    field: Field<'_, Idler>,
    lists: &Lists,
    mut seats: Seats<Idler>,
) -> Result<(World, Journal), Fail>
    requires of { AreOf field seats }
    requires lists { field.terms.lists ≡ lists.now }
    requires all { All (λ seat. IsSome seat) seats.seats }
{
    with_both_seats(rt, &field, lists, &mut seats)?;
    Ok(field.close(seats))
}

/// The field leaves the world as it was before, and a journal without an entry.
fn leaves_all(
    rt: &impl Abort,
    alloc: Global,
    world: World,
    lists: &Lists,
    before: &World,
) -> Result<(), Fail>
    requires some { 1 ≤ length lists.now.ids }
    requires bots { All (All (λ id. IsSome (bot_at world id))) lists.now.ids }
{
    let (field, seats) = field_of(alloc, &Idler, world, lists)?;
    let (last, journal) = closed(rt, field, lists, seats)?;
    assert!(rt; last.same(before) && journal.first().same(before) && journal.entries().is_empty());
    Ok(())
}

#[test]
fn a_zone_that_another_holds_is_refused_until_it_is_released(rt: HostRuntime) -> Result<(), Fail> {
    let alloc = rt.alloc();
    let world = world_in(alloc, 8, 8, &[standing(2, 3, 0), standing(3, 3, 0)])?;
    let before = world.copy(alloc)?;
    let lists = lists_of(alloc, 2, &world, &[&[0], &[1]])?;
    leaves_all(&rt, alloc, world, &lists, &before)
}

/// Caller 0 holds so many cells of the zone of amoebot 0.
/// The claim of amoebot 1 is refused at this cell, and frees what it won:
/// caller 0 then wins the rest of its zone.
fn refuses_at(
    rt: &impl Abort,
    field: &Field<'_, Idler>,
    lists: &Lists,
    zero: Seat<Idler>,
    one: Seat<Idler>,
    count: usize,
    cell: CellName,
) -> Result<(), Fail>
    requires zero { IsOf field.now zero }
    requires one { IsOf field.now one }
    requires lists { field.now.terms.lists ≡ lists.now }
    requires count { count ≤ 9 }
{
    let held = won(field, begun(field, lists, zero)?, &ZONE_0[..count])?;
    refused_at(rt, field, lists, one, cell)?;
    wins_rest(rt, field, held, &ZONE_0[count..])
}

/// Caller 0 wins these last cells of its zone, and makes its turn.
fn wins_rest(
    rt: &impl Abort,
    field: &Field<'_, Idler>,
    held: Held<Idler>,
    rest: &[CellName],
) -> Result<(), Fail>
    requires { IsOf field.now held }
{
    let held = won(field, held, rest)?;
    assert!(rt; held.count() == 9);
    let zero = freed(rt, field, whole(field, held)?, 0, 0);
    assert!(rt; zero.caller() == 0 && zero.next_turn() == 1);
    Ok(())
}

/// The same with the two seats, which nobody has taken yet.
fn are_refused_at(
    rt: &impl Abort,
    field: &Field<'_, Idler>,
    lists: &Lists,
    seats: &mut Seats<Idler>,
    count: usize,
    cell: CellName,
) -> Result<(), Fail>
    requires of { AreOf field.now seats.old }
    requires lists { field.now.terms.lists ≡ lists.now }
    requires count { count ≤ 9 }
{
    let zero = seat_of(field, seats, 0)?;
    let one = seat_of(field, seats, 1)?;
    refuses_at(rt, field, lists, zero, one, count, cell)
}

/// The same over a field of its own.
fn is_refused_at(rt: &impl Abort, alloc: Global, count: usize, cell: CellName) -> Result<(), Fail>
    requires { count ≤ 9 }
{
    let world = world_in(alloc, 8, 8, &[standing(2, 3, 0), standing(3, 3, 0)])?;
    let lists = lists_of(alloc, 1, &world, &[&[0], &[1]])?;
    let (field, mut seats) = field_of(alloc, &Idler, world, &lists)?;
    are_refused_at(rt, &field, &lists, &mut seats, count, cell)
}

#[test]
fn a_claim_is_refused_at_the_own_body(rt: HostRuntime) -> Result<(), Fail> {
    is_refused_at(&rt, rt.alloc(), 9, CellName::Body(1))
}

#[test]
fn a_claim_is_refused_at_the_first_node(rt: HostRuntime) -> Result<(), Fail> {
    is_refused_at(&rt, rt.alloc(), 8, CellName::Spot(Node { x: 3, y: 3 }))
}

#[test]
fn a_claim_is_refused_at_the_last_body(rt: HostRuntime) -> Result<(), Fail> {
    is_refused_at(&rt, rt.alloc(), 1, CellName::Body(0))
}
