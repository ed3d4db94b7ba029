ghost use Rattle.std.specs.Prelude.{◌≡◌, ◌<◌, ◌≤◌, ◌*◌, ◌≤ℤ◌, pos, negsuc, length, Decides, IfOk, IsTrue, ℕ};
ghost use Rattle.tri_lattice.specs.{declared.node.Node.{Node}, Lattice.{IsNear, distance}};
ghost use Rattle.amoebot_state.specs.Occupied.{occupied};
ghost use Rattle.shape_checks.specs.{Arcs.{circle_entry}, Candidates.{IsCentral, most_radius}};
ghost use Rattle.shape_checks.specs.Hexagons.{steps_away, ring_node, IsHexagonAt, AreContracted};

use crate::arc::is_arc;
use amoebot_state::{NoMemory, World};
use std::alloc::Global;
use tri_lattice::{Node, distance};

/// Whether the shape is a hexagon of this radius round a node.
pub(crate) fn is_hexagon_at(
    alloc: Global,
    world: &World,
    centre: Node,
    radius: u16,
) -> Result<bool, NoMemory>
    requires contracted { AreContracted world.now }
    requires central { IsCentral centre }
    requires some { 1 ≤ radius }
    requires few { radius ≤ most_radius }
    ensures { IfOk result (λ b. Decides b (IsHexagonAt (occupied world.now) centre radius)) }
{
    if !is_within(world, centre, radius) || !is_filled(world, centre, radius) {
        return Ok(false);
    }
    let ring = ring(alloc, world, centre, radius)?;
    Ok(is_arc(ring.as_slice()))
}

/// Whether no occupied node is farther away than the radius.
pub(crate) fn is_within(world: &World, centre: Node, radius: u16) -> bool
    requires contracted { AreContracted world.now }
    requires central { IsCentral centre }
    ensures { Decides result ((v : Node) → IsTrue (occupied world.now v) → distance centre v ≤ radius) }
{
    world.keeps();
    for id in 0..world.bots() {
        if distance(centre, world.bot(id).head) > u32::from(radius) {
            return false;
        }
    }
    true
}

/// Whether all nodes that are nearer than the radius are occupied.
pub(crate) fn is_filled(world: &World, centre: Node, radius: u16) -> bool
    requires central { IsCentral centre }
    requires few { radius ≤ most_radius }
    ensures { Decides result ((v : Node) → distance centre v < radius → IsTrue (occupied world.now v)) }
{
    for up in 0..2 * radius {
        let y = centre.y - radius as i16 + up as i16;
        if !is_row_filled(world, centre, radius, y) {
            return false;
        }
    }
    true
}

/// The same for the nodes of one row.
fn is_row_filled(world: &World, centre: Node, radius: u16, y: i16) -> bool
    requires central { IsCentral centre }
    requires few { radius ≤ most_radius }
    requires low { negsuc 6999 ≤ℤ y }
    requires high { y ≤ℤ pos 7000 }
    ensures { Decides result ((v : Node) → v.y ≡ y
        → distance centre v < radius → IsTrue (occupied world.now v)) }
{
    for right in 0..2 * radius {
        let x = centre.x - radius as i16 + right as i16;
        let node = Node { x, y };
        if !is_filled_at(world, centre, radius, node) {
            return false;
        }
    }
    true
}

/// The same for one node.
fn is_filled_at(world: &World, centre: Node, radius: u16, node: Node) -> bool
    requires central { IsCentral centre }
    requires near { IsNear node }
    ensures { Decides result (distance centre node < radius → IsTrue (occupied world.now node)) }
{
    distance(centre, node) >= u32::from(radius) || world.occupant(node).is_some()
}

/// Which places of the ring at the radius are occupied.
pub(crate) fn ring(
    alloc: Global,
    world: &World,
    centre: Node,
    radius: u16,
) -> Result<Vec<bool>, NoMemory>
    requires central { IsCentral centre }
    requires some { 1 ≤ radius }
    requires few { radius ≤ most_radius }
    ensures len { IfOk result (λ ring. length ring.items ≡ 6 * radius) }
    ensures places { IfOk result (λ ring.
        (k : ℕ) → k < 6 * radius
        → circle_entry ring.items k ≡ occupied world.now (ring_node centre radius k)) }
{
    let mut ring = Vec::new(alloc);
    for k in 0..6 * radius {
        let node = ring_node(centre, radius, k);
        ring.push(world.occupant(node).is_some())?;
    }
    Ok(ring)
}

/// The node at a place of the ring: the corners in directions 0 to 5 come first, second and so on,
/// each with the nodes that lead to the next one.
fn ring_node(centre: Node, radius: u16, k: u16) -> Node
    requires central { IsCentral centre }
    requires some { 1 ≤ radius }
    requires few { radius ≤ most_radius }
    requires below { k < 6 * radius }
    ensures { result ≡ ring_node centre radius k }
{
    let side = k / radius;
    let corner = steps_away(centre, side, radius);
    steps_away(corner, (side + 2) % 6, k % radius)
}

/// The node so many steps away in a direction.
fn steps_away(from: Node, dir: u16, steps: u16) -> Node
    requires below { dir < 6 }
    requires few { steps ≤ most_radius }
    requires x_low { negsuc 6999 ≤ℤ from.x }
    requires x_high { from.x ≤ℤ pos 7000 }
    requires y_low { negsuc 6999 ≤ℤ from.y }
    requires y_high { from.y ≤ℤ pos 7000 }
    ensures { result ≡ steps_away from dir steps }
{
    let steps = steps as i16;
    let Node { x, y } = from;
    match dir {
        0 => Node { x: x + steps, y },
        1 => Node { x, y: y + steps },
        2 => Node {
            x: x - steps,
            y: y + steps,
        },
        3 => Node { x: x - steps, y },
        4 => Node { x, y: y - steps },
        _ => Node {
            x: x + steps,
            y: y - steps,
        },
    }
}
