//! A caller looks at the word of a node, another one makes its whole turn,
//! and then the first one tries the word that it noted.
ghost use Rattle.std.specs.Prelude.{◌≡◌, IfOk};
ghost use Rattle.claim_rule.specs.Seating.{AreOf};
ghost use Rattle.claim_rule.specs.Tokens.{IsOf};

use crate::field_fixtures::{begun, won};
use crate::fields::{decided, field_of, seat_of};
use amoebot_state::{CellName, Decider, End, Port};
use claim_core::Lists;
use claim_rule::{Field, Held, Noted, Seat, Seats, look_at, store, take, try_at};
use node_claims::release_settled;
use small_worlds::{Expander, Marker, lists_of, standing, world_in};
use std::process::Abort;
use std::test::Fail;
use tri_lattice::Node;

/// The node that the zones of amoebot 0 at (2, 3) and of amoebot 1 at (4, 3) share,
/// and no other cell.
const SHARED: Node = Node { x: 3, y: 3 };

/// The cells of the zone of amoebot 1 before that node.
static BEFORE: [CellName; 5] = [
    CellName::Body(1),
    CellName::Spot(Node { x: 4, y: 3 }),
    CellName::Spot(Node { x: 5, y: 3 }),
    CellName::Spot(Node { x: 4, y: 4 }),
    CellName::Spot(Node { x: 3, y: 4 }),
];

/// The nodes of the zone after it.
static AFTER: [CellName; 2] = [
    CellName::Spot(Node { x: 4, y: 2 }),
    CellName::Spot(Node { x: 5, y: 2 }),
];

/// The program that expands through port 0 of the head.
const EXPANDER: Expander = Expander {
    port: Port {
        end: End::Head,
        dir: 0,
    },
};

/// The occupant 0 in a word, and the stamp 1.
const OCCUPANT_0: u64 = 1 << 33;

const STAMP_1: u64 = 1 << 46;

/// The node is the next cell, and is noted.
fn noted_at<D: Decider>(field: &Field<'_, D>, held: Held<D>, node: Node) -> Result<Noted<D>, Fail>
    requires { IsOf field.now held }
    ensures { IfOk result (λ noted. IsOf field.now noted.claim) }
{
    match held.next(field) {
        Some(CellName::Spot(next)) => {
            if next != node {
                return Err(Fail::from("another node is next"));
            }
            match look_at(held, field, next) {
                Ok(noted) => Ok(noted),
                Err(_) => Err(Fail::from("the node is held")),
            }
        }
        _ => Err(Fail::from("no node is next")),
    }
}

/// The seat's next turn is Done at place 0, and the seat holds nothing then.
fn turn_done<D: Decider>(
    rt: &impl Abort,
    field: &Field<'_, D>,
    lists: &Lists,
    seat: Seat<D>,
) -> Result<(), Fail>
    requires of { IsOf field.now seat }
    requires lists { field.now.terms.lists ≡ lists.now }
{
    let (claimed, change) = decided(field, lists, seat)?;
    match take(claimed, field, change) {
        Err(_) => Err(Fail::from("the journal is taken")),
        Ok(taken) => {
            let (settled, receipt) = store(taken, field);
            assert!(rt; receipt.caller() == 0 && receipt.place() == 0);
            let seat = release_settled(settled, field);
            assert!(rt; seat.next_turn() == 1);
            Ok(())
        }
    }
}

/// Caller 1 has noted the shared node, as it was before caller 0 made its whole turn.
fn overtaken<D: Decider>(
    rt: &impl Abort,
    field: &Field<'_, D>,
    lists: &Lists,
    seats: &mut Seats<D>,
) -> Result<Noted<D>, Fail>
    requires of { AreOf field.now seats.old }
    requires lists { field.now.terms.lists ≡ lists.now }
    ensures { IfOk result (λ noted. IsOf field.now noted.claim) }
{
    let zero = seat_of(field, seats, 0)?;
    let noted = shared_is_noted(rt, field, lists, seat_of(field, seats, 1)?)?;
    turn_done(rt, field, lists, zero)?;
    Ok(noted)
}

/// A caller has won the cells before the shared node, which has no occupant and no stamp,
/// and notes it.
fn shared_is_noted<D: Decider>(
    rt: &impl Abort,
    field: &Field<'_, D>,
    lists: &Lists,
    one: Seat<D>,
) -> Result<Noted<D>, Fail>
    requires one { IsOf field.now one }
    requires lists { field.now.terms.lists ≡ lists.now }
    ensures { IfOk result (λ noted. IsOf field.now noted.claim) }
{
    let held = won(field, begun(field, lists, one)?, &BEFORE)?;
    assert!(rt; field.peek_node(SHARED) == Some(0));
    let noted = noted_at(field, held, SHARED)?;
    assert!(rt; noted.occupant() == None && noted.stamp() == 0);
    Ok(noted)
}

/// The rest of the zone is won, up to this cell, which is next.
fn wins_rest<D: Decider>(
    rt: &impl Abort,
    field: &Field<'_, D>,
    held: Held<D>,
    next: Option<CellName>,
) -> Result<(), Fail>
    requires { IsOf field.now held }
{
    assert!(rt; held.count() == 6);
    let held = won(field, held, &AFTER)?;
    assert!(rt; held.next(field) == next);
    Ok(())
}

/// Each node of the area has stamp 0.
fn has_no_stamp<D: Decider>(rt: &impl Abort, field: &Field<'_, D>) {
    for x in 0..8i16 {
        for y in 0..8i16 {
            let word = field.peek_node(Node { x, y }).unwrap_or(STAMP_1);
            assert!(rt; word < STAMP_1);
        }
    }
}

/// The commit has changed a variable, and so no node: the first try wins.
fn first_try_wins(
    rt: &impl Abort,
    field: &Field<'_, Marker>,
    lists: &Lists,
    seats: &mut Seats<Marker>,
) -> Result<(), Fail>
    requires of { AreOf field.now seats.old }
    requires lists { field.now.terms.lists ≡ lists.now }
{
    let noted = overtaken(rt, field, lists, seats)?;
    has_no_stamp(rt, field);
    assert!(rt; field.peek_node(SHARED) == Some(0));
    assert!(rt; field.peek_node(Node { x: 2, y: 3 }) == Some(OCCUPANT_0));
    match try_at(noted, field) {
        Ok(held) => wins_rest(rt, field, held, None),
        Err(_) => Err(Fail::from("the first try does not win")),
    }
}

/// The commit has changed the node: the first try finds its new word,
/// and the second wins it with its occupant.
fn second_try_wins(
    rt: &impl Abort,
    field: &Field<'_, Expander>,
    lists: &Lists,
    seats: &mut Seats<Expander>,
) -> Result<(), Fail>
    requires of { AreOf field.now seats.old }
    requires lists { field.now.terms.lists ≡ lists.now }
{
    let noted = overtaken(rt, field, lists, seats)?;
    assert!(rt; field.peek_node(SHARED) == Some(OCCUPANT_0 + STAMP_1));
    assert!(rt; field.peek_node(Node { x: 2, y: 3 }) == Some(OCCUPANT_0));
    match try_at(noted, field) {
        Err(Ok(again)) => {
            assert!(rt; again.occupant() == Some(0) && again.stamp() == 1);
            match try_at(again, field) {
                Ok(held) => wins_rest(rt, field, held, Some(CellName::Body(0))),
                Err(_) => Err(Fail::from("the second try does not win")),
            }
        }
        _ => Err(Fail::from("the first try does not find the new word")),
    }
}

#[test]
fn a_node_that_a_commit_left_is_won_by_the_first_try(rt: HostRuntime) -> Result<(), Fail> {
    let alloc = rt.alloc();
    let world = world_in(alloc, 8, 8, &[standing(2, 3, 0), standing(4, 3, 0)])?;
    let lists = lists_of(alloc, 1, &world, &[&[0], &[1]])?;
    let (field, mut seats) = field_of(alloc, &Marker, world, &lists)?;
    first_try_wins(&rt, &field, &lists, &mut seats)
}

#[test]
fn a_node_that_a_commit_changed_is_won_by_the_second_try(rt: HostRuntime) -> Result<(), Fail> {
    let alloc = rt.alloc();
    let world = world_in(alloc, 8, 8, &[standing(2, 3, 0), standing(4, 3, 0)])?;
    let lists = lists_of(alloc, 1, &world, &[&[0], &[1]])?;
    let (field, mut seats) = field_of(alloc, &EXPANDER, world, &lists)?;
    second_try_wins(&rt, &field, &lists, &mut seats)
}
