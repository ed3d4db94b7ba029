ghost use Rattle.std.specs.Prelude.{◌≡◌, ◌≤◌, length};
ghost use Rattle.std.specs.List.{All};
ghost use Rattle.amoebot_state.specs.Limits.{most_bots};
ghost use Rattle.amoebot_state.specs.Refusals.{IsBotInRange};
ghost use Rattle.claim_rule.specs.Tokens.{IsOf};

use crate::field_fixtures::{claimed_whole, freed};
use crate::fields::{field_of, seat_of};
use amoebot_state::{Bot, CellName};
use claim_core::Lists;
use claim_rule::{Field, Seat};
use small_worlds::{Idler, lists_of, spread, standing, world_in};
use std::alloc::Global;
use std::process::Abort;
use std::test::Fail;
use tri_lattice::Node;

/// The zone of amoebot 0 at (7, 3), in an area of eight by eight nodes at 0 0.
static AT_EDGE: [CellName; 6] = [
    CellName::Body(0),
    CellName::Spot(Node { x: 7, y: 3 }),
    CellName::Spot(Node { x: 7, y: 4 }),
    CellName::Spot(Node { x: 6, y: 4 }),
    CellName::Spot(Node { x: 6, y: 3 }),
    CellName::Spot(Node { x: 7, y: 2 }),
];

/// The zone of amoebot 0 whose tail is at (3, 3) and whose head is at (4, 3),
/// with an amoebot at each node beside it.
static NINETEEN: [CellName; 19] = [
    CellName::Body(0),
    CellName::Spot(Node { x: 4, y: 3 }),
    CellName::Spot(Node { x: 3, y: 3 }),
    CellName::Spot(Node { x: 5, y: 3 }),
    CellName::Spot(Node { x: 4, y: 4 }),
    CellName::Spot(Node { x: 3, y: 4 }),
    CellName::Spot(Node { x: 4, y: 2 }),
    CellName::Spot(Node { x: 5, y: 2 }),
    CellName::Spot(Node { x: 2, y: 4 }),
    CellName::Spot(Node { x: 2, y: 3 }),
    CellName::Spot(Node { x: 3, y: 2 }),
    CellName::Body(1),
    CellName::Body(2),
    CellName::Body(3),
    CellName::Body(4),
    CellName::Body(5),
    CellName::Body(6),
    CellName::Body(7),
    CellName::Body(8),
];

/// The zone of the first turn of caller 0 is this one, cell by cell.
fn is_zone(
    rt: &impl Abort,
    field: &Field<'_, Idler>,
    lists: &Lists,
    seat: Seat<Idler>,
    zone: &[CellName],
) -> Result<(), Fail>
    requires of { IsOf field.now seat }
    requires lists { field.now.terms.lists ≡ lists.now }
{
    let claimed = claimed_whole(rt, field, lists, seat, zone)?;
    let seat = freed(rt, field, claimed, 0, 0);
    assert!(rt; (seat.caller(), seat.next_turn()) == (0, 1));
    Ok(())
}

/// The zone of amoebot 0 of a world of these is this one.
fn has_zone(rt: &impl Abort, alloc: Global, bots: &[Bot], zone: &[CellName]) -> Result<(), Fail>
    requires few { length bots.now ≤ most_bots }
    requires in_range { All IsBotInRange bots.now }
{
    let world = world_in(alloc, 8, 8, bots)?;
    let lists = lists_of(alloc, 1, &world, &[&[0]])?;
    let (field, mut seats) = field_of(alloc, &Idler, world, &lists)?;
    let seat = seat_of(&field, &mut seats, 0)?;
    is_zone(rt, &field, &lists, seat, zone)
}

#[test]
fn a_zone_at_the_edge_has_the_nodes_in_the_area(rt: HostRuntime) -> Result<(), Fail> {
    has_zone(&rt, rt.alloc(), &[standing(7, 3, 0)], &AT_EDGE)
}

#[test]
fn a_zone_has_nineteen_cells(rt: HostRuntime) -> Result<(), Fail> {
    has_zone(
        &rt,
        rt.alloc(),
        &[
            spread((4, 3), (3, 3), 0),
            standing(5, 3, 0),
            standing(4, 4, 0),
            standing(3, 4, 0),
            standing(4, 2, 0),
            standing(5, 2, 0),
            standing(2, 4, 0),
            standing(2, 3, 0),
            standing(3, 2, 0),
        ],
        &NINETEEN,
    )
}
