ghost use Rattle.std.specs.Prelude.{◌≡◌, ◌≤◌, length, map, is_some, IfOk, IsSome, OnOk};
ghost use Rattle.std.specs.List.{All};
ghost use Rattle.amoebot_state.specs.Configs.{bot_at};
ghost use Rattle.claim_rule.specs.Seating.{AreOf};
ghost use Rattle.claim_rule.specs.Tokens.{IsOf, number_in};
ghost use Rattle.claim_rule.specs.Settling.{IsToTake};

use crate::fixtures::{Counter, are_entries, turn_of};
use crate::machine::{is_left, is_marked, machine_leaves};
use activation::Gate;
use amoebot_state::{CellName, Change, Decider, Failure, World};
use claim_core::{Journal, Lists, Mark, Marks};
use claim_rule::{Claimed, Field, Seat, Seats};
use commit_journal::commit;
use node_claims::release_settled;
use small_worlds::{AtEdge, Marker, lists_of, standing, world_in};
use std::alloc::Global;
use std::process::Abort;
use std::sync::Wait;
use std::test::Fail;
use tests_claims::{decided, field_of, seat_of};

/// Makes the seat's next turn, which has this mark, as the machine has.
fn marked<R: Wait + Abort, D: Decider, G: Gate>(
    rt: &R,
    field: &Field<'_, D>,
    lists: &Lists,
    expected: &Marks,
    gate: &G,
    seat: Seat<D>,
    mark: Mark,
) -> Result<Seat<D>, Fail>
    requires of { IsOf field.now seat }
    requires lists { field.now.terms.lists ≡ lists.now }
    ensures of { IfOk result (λ after. IsOf field.now after) }
    ensures same { IfOk result (λ after. number_in after ≡ number_in seat) }
{
    let (after, answer) = turn_of(rt, field, lists, gate, seat)?;
    assert!(rt; answer.mark() == mark);
    is_marked(rt, expected, &answer)?;
    Ok(after)
}

/// Each of the two seats makes its next turn, with these marks.
fn one_each<R: Wait + Abort>(
    rt: &R,
    field: &Field<'_, Marker>,
    lists: &Lists,
    expected: &Marks,
    gate: &Counter,
    seats: (Seat<Marker>, Seat<Marker>),
    marks: (Mark, Mark),
) -> Result<(Seat<Marker>, Seat<Marker>), Fail>
    requires first { IsOf field.now seats.0 }
    requires second { IsOf field.now seats.1 }
    requires lists { field.now.terms.lists ≡ lists.now }
    ensures first { IfOk result (λ after. IsOf field.now after.0 × (number_in after.0 ≡ number_in seats.0)) }
    ensures second { IfOk result (λ after. IsOf field.now after.1 × (number_in after.1 ≡ number_in seats.1)) }
{
    let (first, second) = seats;
    let first = marked(rt, field, lists, expected, gate, first, marks.0)?;
    let second = marked(rt, field, lists, expected, gate, second, marks.1)?;
    Ok((first, second))
}

/// One turn after another: both commit, and then both are idle. The gate is called in each.
fn in_turn<R: Wait + Abort>(
    rt: &R,
    field: &Field<'_, Marker>,
    lists: &Lists,
    expected: &Marks,
    zero: Seat<Marker>,
    one: Seat<Marker>,
) -> Result<(Seat<Marker>, Seat<Marker>), Fail>
    requires zero { IsOf field.now zero }
    requires one { IsOf field.now one }
    requires lists { field.now.terms.lists ≡ lists.now }
    ensures zero { IfOk result (λ after. IsOf field.now after.0 × (number_in after.0 ≡ number_in zero)) }
    ensures one { IfOk result (λ after. IsOf field.now after.1 × (number_in after.1 ≡ number_in one)) }
{
    let gate = Counter::new();
    let done = (Mark::Done { place: 0 }, Mark::Done { place: 1 });
    let idle = (Mark::Idle { place: 2 }, Mark::Idle { place: 2 });
    let seats = one_each(rt, field, lists, expected, &gate, (zero, one), done)?;
    let (zero, one) = one_each(rt, field, lists, expected, &gate, seats, idle)?;
    assert!(rt; gate.calls() == 4);
    assert!(rt; zero.next_turn() == 2 && one.next_turn() == 2);
    Ok((zero, one))
}

/// Commits the change of the first turn of caller 0, which is the first one of the journal,
/// and frees the zone.
fn committed<R: Wait + Abort>(
    rt: &R,
    field: &Field<'_, Marker>,
    claimed: Claimed<Marker>,
    change: Change,
) -> Seat<Marker>
    requires of { IsOf field.now claimed }
    requires takes { IsToTake claimed change }
    ensures of { IsOf field.now result }
    ensures same { number_in result ≡ number_in claimed }
{
    let (settled, receipt) = commit(rt, field, claimed, change);
    assert!(rt; receipt.caller() == 0 && receipt.turn() == 0 && receipt.place() == 0);
    release_settled(settled, field)
}

/// The first turn of each: that of caller 1 lies between the decision and the commit of caller 0,
/// and does not come to the gate.
fn first_inside<R: Wait + Abort>(
    rt: &R,
    field: &Field<'_, Marker>,
    lists: &Lists,
    expected: &Marks,
    zero: Seat<Marker>,
    one: Seat<Marker>,
) -> Result<(Seat<Marker>, Seat<Marker>), Fail>
    requires zero { IsOf field.now zero }
    requires one { IsOf field.now one }
    requires lists { field.now.terms.lists ≡ lists.now }
    ensures zero { IfOk result (λ after. IsOf field.now after.0 × (number_in after.0 ≡ number_in zero)) }
    ensures one { IfOk result (λ after. IsOf field.now after.1 × (number_in after.1 ≡ number_in one)) }
{
    let gate = Counter::new();
    let busy = Mark::Busy {
        cell: CellName::Body(1),
        by_caller: 0,
        by_turn: 0,
        by_bot: 0,
        place: 0,
    };
    let (claimed, change) = decided(field, lists, zero)?;
    let one = marked(rt, field, lists, expected, &gate, one, busy)?;
    assert!(rt; gate.calls() == 0);
    Ok((committed(rt, field, claimed, change), one))
}

/// Caller 1 makes its first turn once caller 0 has decided,
/// and its second one once caller 0 has committed.
/// The gate is called in the two turns that come then.
fn inside<R: Wait + Abort>(
    rt: &R,
    field: &Field<'_, Marker>,
    lists: &Lists,
    expected: &Marks,
    zero: Seat<Marker>,
    one: Seat<Marker>,
) -> Result<(Seat<Marker>, Seat<Marker>), Fail>
    requires zero { IsOf field.now zero }
    requires one { IsOf field.now one }
    requires lists { field.now.terms.lists ≡ lists.now }
    ensures zero { IfOk result (λ after. IsOf field.now after.0 × (number_in after.0 ≡ number_in zero)) }
    ensures one { IfOk result (λ after. IsOf field.now after.1 × (number_in after.1 ≡ number_in one)) }
{
    let gate = Counter::new();
    let marks = (Mark::Done { place: 1 }, Mark::Idle { place: 2 });
    let (zero, one) = first_inside(rt, field, lists, expected, zero, one)?;
    let (one, zero) = one_each(rt, field, lists, expected, &gate, (one, zero), marks)?;
    assert!(rt; gate.calls() == 2);
    assert!(rt; zero.next_turn() == 2 && one.next_turn() == 2);
    Ok((zero, one))
}

/// How two callers make their two turns each.
#[derive(Clone, Copy)]
enum Order {
    /// One turn after another.
    InTurn,
    /// The first turn of caller 1 lies inside that of caller 0.
    Inside,
}

/// Each makes its two turns, in this order.
fn by_order<R: Wait + Abort>(
    rt: &R,
    field: &Field<'_, Marker>,
    lists: &Lists,
    expected: &Marks,
    order: Order,
    zero: Seat<Marker>,
    one: Seat<Marker>,
) -> Result<(Seat<Marker>, Seat<Marker>), Fail>
    requires zero { IsOf field.now zero }
    requires one { IsOf field.now one }
    requires lists { field.now.terms.lists ≡ lists.now }
    ensures zero { IfOk result (λ after. IsOf field.now after.0 × (number_in after.0 ≡ number_in zero)) }
    ensures one { IfOk result (λ after. IsOf field.now after.1 × (number_in after.1 ≡ number_in one)) }
{
    match order {
        Order::InTurn => in_turn(rt, field, lists, expected, zero, one),
        Order::Inside => inside(rt, field, lists, expected, zero, one),
    }
}

/// Both seats are taken, make their turns, and are given back.
fn with_both_seats<R: Wait + Abort>(
    rt: &R,
    field: &Field<'_, Marker>,
    lists: &Lists,
    expected: &Marks,
    order: Order,
    seats: &mut Seats<Marker>,
) -> Result<(), Fail>
    requires of { AreOf field.now seats.old }
    requires lists { field.now.terms.lists ≡ lists.now }
    ensures of { OnOk result (AreOf field.now seats.new) }
    ensures there { OnOk result (map is_some seats.new.seats ≡ map is_some seats.old.seats) }
{
    let zero = seat_of(field, seats, 0)?;
    let one = seat_of(field, seats, 1)?;
    let (zero_after, one_after) = by_order(rt, field, lists, expected, order, zero, one)?;
    seats.give(one_after);
    seats.give(zero_after);
    Ok(())
}

/// What the field leaves once both callers have made their turns.
fn closed<R: Wait + Abort>(
    rt: &R,
    field: Field<'_, Marker>,
    lists: &Lists,
    expected: &Marks,
    order: Order,
    mut seats: Seats<Marker>,
) -> Result<(World, Journal), Fail>
    requires of { AreOf field seats }
    requires lists { field.terms.lists ≡ lists.now }
    requires all { All (λ seat. IsSome seat) seats.seats }
{
    with_both_seats(rt, &field, lists, expected, order, &mut seats)?;
    Ok(field.close(seats))
}

/// What a field over the world leaves once both callers have made their turns.
fn left_by<R: Wait + Abort>(
    rt: &R,
    alloc: Global,
    world: World,
    lists: &Lists,
    expected: &Marks,
    order: Order,
) -> Result<(World, Journal), Fail>
    requires some { 1 ≤ length lists.now.ids }
    requires bots { All (All (λ id. IsSome (bot_at world id))) lists.now.ids }
{
    let (field, seats) = field_of(alloc, &Marker, world, lists)?;
    closed(rt, field, lists, expected, order, seats)
}

/// Variable 0 of both is 1.
pub fn are_marked(rt: &impl Abort, alloc: Global, last: &World) -> Result<(), Fail> {
    let marked = world_in(alloc, 8, 8, &[standing(2, 3, 1), standing(3, 3, 1)])?;
    assert!(rt; last.same(&marked));
    Ok(())
}

/// What the journal is of two neighbours, each with a caller of two turns.
/// They end with variable 0 at 1, as the machine leaves them by the same steps.
fn both_marked<R: Wait + Abort>(
    rt: &R,
    alloc: Global,
    order: Order,
    steps: &[(u8, u8)],
) -> Result<Journal, Fail> {
    let world = world_in(alloc, 8, 8, &[standing(2, 3, 0), standing(3, 3, 0)])?;
    let lists = lists_of(alloc, 2, &world, &[&[0], &[1]])?;
    let report = machine_leaves(alloc, &Marker, &world, &lists, steps)?;
    let (last, journal) = left_by(rt, alloc, world, &lists, &report.turns, order)?;
    is_left(rt, &report, &last, &journal);
    are_marked(rt, alloc, &last)?;
    Ok(journal)
}

/// The steps of one turn after another: in its first turn a caller commits,
/// and in its second one it is idle.
pub static IN_TURN: [(u8, u8); 4] = [(0, 20), (1, 20), (0, 19), (1, 19)];

#[test]
fn two_callers_commit_one_after_the_other_and_then_are_idle(rt: HostRuntime) -> Result<(), Fail> {
    let journal = both_marked(&rt, rt.alloc(), Order::InTurn, &IN_TURN)?;
    are_entries(&rt, &journal, &[(0, 0, 0), (1, 0, 1)]);
    Ok(())
}

/// Nine steps of caller 0, in which it decides; the first turn of caller 1;
/// and then one turn after another.
static INSIDE: [(u8, u8); 5] = [(0, 9), (1, 2), (0, 11), (1, 20), (0, 19)];

#[test]
fn a_second_caller_is_busy_while_the_zone_is_held(rt: HostRuntime) -> Result<(), Fail> {
    let journal = both_marked(&rt, rt.alloc(), Order::Inside, &INSIDE)?;
    are_entries(&rt, &journal, &[(0, 0, 0), (1, 1, 1)]);
    Ok(())
}

/// Two turns, each of which comes to the gate and fails.
fn fails_twice<R: Wait + Abort>(
    rt: &R,
    field: &Field<'_, AtEdge>,
    lists: &Lists,
    expected: &Marks,
    seat: Seat<AtEdge>,
) -> Result<(), Fail>
    requires of { IsOf field.now seat }
    requires lists { field.now.terms.lists ≡ lists.now }
{
    let gate = Counter::new();
    let failed = Mark::Failed {
        failure: Failure::Edge,
        place: 0,
    };
    let seat = marked(rt, field, lists, expected, &gate, seat, failed)?;
    let seat = marked(rt, field, lists, expected, &gate, seat, failed)?;
    assert!(rt; seat.next_turn() == 2 && gate.calls() == 2);
    Ok(())
}

/// The same on a field over the world.
fn fails_in<R: Wait + Abort>(
    rt: &R,
    alloc: Global,
    world: World,
    lists: &Lists,
    expected: &Marks,
) -> Result<(), Fail>
    requires some { 1 ≤ length lists.now.ids }
    requires bots { All (All (λ id. IsSome (bot_at world id))) lists.now.ids }
{
    let (field, mut seats) = field_of(alloc, &AtEdge, world, lists)?;
    let seat = seat_of(&field, &mut seats, 0)?;
    fails_twice(rt, &field, lists, expected, seat)
}

#[test]
fn a_turn_that_fails_leaves_its_zone_free(rt: HostRuntime) -> Result<(), Fail> {
    let alloc = rt.alloc();
    let world = world_in(alloc, 8, 8, &[standing(2, 3, 0)])?;
    let lists = lists_of(alloc, 2, &world, &[&[0]])?;
    let report = machine_leaves(alloc, &AtEdge, &world, &lists, &[(0, 38)])?;
    fails_in(&rt, alloc, world, &lists, &report.turns)
}
