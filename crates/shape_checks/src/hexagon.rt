ghost use Rattle.std.specs.Prelude.{◌≡◌, ◌⊎◌, ◌<◌, ◌≤◌, ◌≤ℤ◌, ◌-ℤ◌, pos, length, Decides, IfOk};
ghost use Rattle.amoebot_state.specs.Occupied.{occupied};
ghost use Rattle.shape_checks.specs.Hexagons.{AreContracted, IsHexagon};
ghost use Rattle.shape_checks.specs.Candidates.{AreExtremes, AreCentral, HasCentre, candidates, most_radius};

use crate::disc::is_hexagon_at;
use amoebot_state::{NoMemory, World};
use std::alloc::Global;
use tri_lattice::Node;

/// Whether the shape is a hexagon: there is an amoebot, all are contracted, and their nodes are,
/// for some node and some radius of at least 1, all nodes that are nearer to it,
/// and of the ring at that distance none, all, or some that follow one another.
///
/// The full rings leave at most eight pairs of a node and a radius to try.
pub fn is_hexagon(alloc: Global, world: &World) -> Result<bool, NoMemory>
    ensures { IfOk result (λ b. Decides b (IsHexagon world.now)) }
{
    if world.bots() == 0 || !are_contracted(world) {
        return Ok(false);
    }
    let ends = extremes_of(world);
    let half = width(&ends) / 2;
    if half > 0 && has_centre(alloc, world, &ends, half)? {
        return Ok(true);
    }
    Ok(has_centre(alloc, world, &ends, half + 1)?)
}

/// Whether each amoebot has one node.
pub(crate) fn are_contracted(world: &World) -> bool
    ensures { Decides result (AreContracted world.now) }
{
    for id in 0..world.bots() {
        if !world.bot(id).is_contracted() {
            return false;
        }
    }
    true
}

/// Nodes of a shape that lie as far to the left, to the right and down as any.
#[derive(Clone, Copy, Drop)]
struct Extremes {
    left: Node,
    right: Node,
    low: Node,
}

/// The extremes of a shape of contracted amoebots, at least one.
fn extremes_of(world: &World) -> Extremes
    requires some { 0 < length world.now.bots }
    requires contracted { AreContracted world.now }
    ensures extremes { AreExtremes (occupied world.now) result }
    ensures central { AreCentral result }
{
    world.keeps();
    let first = world.bot(0).head;
    let mut ends = Extremes {
        left: first,
        right: first,
        low: first,
    };
    for id in 0..world.bots() {
        let node = world.bot(id).head;
        ends = Extremes {
            left: leftmost(ends.left, node),
            right: rightmost(ends.right, node),
            low: lowest(ends.low, node),
        };
    }
    ends
}

/// The one of two nodes that lies farther to the left.
fn leftmost(a: Node, b: Node) -> Node
    ensures { ((result ≡ a) × (a.x ≤ℤ b.x)) ⊎ ((result ≡ b) × (b.x ≤ℤ a.x)) }
{
    if b.x < a.x { b } else { a }
}

/// The one of two nodes that lies farther to the right.
fn rightmost(a: Node, b: Node) -> Node
    ensures { ((result ≡ a) × (b.x ≤ℤ a.x)) ⊎ ((result ≡ b) × (a.x ≤ℤ b.x)) }
{
    if b.x > a.x { b } else { a }
}

/// The one of two nodes that lies farther down.
fn lowest(a: Node, b: Node) -> Node
    ensures { ((result ≡ a) × (a.y ≤ℤ b.y)) ⊎ ((result ≡ b) × (b.y ≤ℤ a.y)) }
{
    if b.y < a.y { b } else { a }
}

/// How far the extremes are apart from left to right.
fn width(ends: &Extremes) -> u16
    requires { AreCentral ends.now }
    ensures value { pos result ≡ ends.now.right.x -ℤ ends.now.left.x }
    ensures few { result ≤ 127 }
{
    (ends.right.x - ends.left.x) as u16
}

/// Whether the shape is a hexagon of this radius round one of the four
/// nodes that its extremes leave.
fn has_centre(alloc: Global, world: &World, ends: &Extremes, radius: u16) -> Result<bool, NoMemory>
    requires contracted { AreContracted world.now }
    requires central { AreCentral ends.now }
    requires some { 1 ≤ radius }
    requires few { radius ≤ most_radius }
    ensures { IfOk result (λ b. Decides b (HasCentre (occupied world.now) ends.now radius)) }
{
    for centre in candidates(ends, radius) {
        if is_hexagon_at(alloc, world, centre, radius)? {
            return Ok(true);
        }
    }
    Ok(false)
}

/// The four nodes that can be the centre of a hexagon of this radius.
fn candidates(ends: &Extremes, radius: u16) -> [Node; 4]
    requires central { AreCentral ends.now }
    requires few { radius ≤ most_radius }
    ensures { result ≡ candidates ends.now radius }
{
    let _extremes = *ends;
    let x = ends.left.x + radius as i16;
    let y = ends.low.y + radius as i16;
    [
        Node { x, y },
        Node { x: x - 1, y },
        Node { x, y: y - 1 },
        Node { x: x - 1, y: y - 1 },
    ]
}
