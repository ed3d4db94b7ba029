//! The two measures of a shape once more, slow and by their definitions,
//! to compare the searches with.
//! They share no line with the searches, and have no clause.

ghost use Rattle.tri_lattice.specs.Lattice.{IsNear};

use crate::measures::is_near;
use amoebot_state::{NoMemory, World};
use std::alloc::Global;
use tri_lattice::{Area, Node};

/// A step in each direction.
const STEPS: [(i32, i32); 6] = [(1, 0), (0, 1), (-1, 1), (-1, 0), (0, -1), (1, -1)];

/// Whether the shape is connected: the marked nodes grow from the head of amoebot 0 until none
/// is beside them, and are all.
pub(crate) fn is_connected(alloc: Global, world: &World) -> Result<bool, NoMemory> {
    if world.bots() == 0 {
        return Ok(true);
    }
    let marks = grown(alloc, world, world.bot(0).head)?;
    Ok(are_marked(world, marks.as_slice()))
}

/// Marks one occupied node, and then one beside those that are marked as long as there is one.
fn grown(alloc: Global, world: &World, start: Node) -> Result<Vec<bool>, NoMemory> {
    let area = world.area();
    let mut marks = vec![in alloc; false; area.size() as usize]?;
    set_mark(&area, &mut marks, start);
    for _ in 0..area.size() {
        match beside(world, marks.as_slice()) {
            Some(node) => set_mark(&area, &mut marks, node),
            None => break,
        }
    }
    Ok(marks)
}

/// Marks a node of the area.
fn set_mark(area: &Area, marks: &mut Vec<bool>, node: Node) {
    if let Some(number) = area.index(node) {
        if let Some(mark) = marks.get_mut(number as usize) {
            *mark = true;
        }
    }
}

/// Whether a node is marked.
fn is_marked(area: &Area, marks: &[bool], node: Node) -> bool {
    match area.index(node) {
        Some(number) => marks.get(number as usize).copied().unwrap_or(false),
        None => false,
    }
}

/// An occupied node that is not marked and has a marked neighbour.
fn beside(world: &World, marks: &[bool]) -> Option<Node> {
    let area = world.area();
    for number in 0..area.size() {
        let node = area.node(number);
        if is_beside(world, marks, node) {
            return Some(node);
        }
    }
    None
}

/// Whether a node is occupied and not marked, and has a marked neighbour.
fn is_beside(world: &World, marks: &[bool], node: Node) -> bool {
    let area = world.area();
    if world.occupant(node).is_none() || is_marked(&area, marks, node) {
        return false;
    }
    is_near(node) && has_marked_neighbour(&area, marks, node)
}

/// Whether a neighbour of a node is marked.
fn has_marked_neighbour(area: &Area, marks: &[bool], node: Node) -> bool
    requires { IsNear node }
{
    for next in node.ring() {
        if is_marked(area, marks, next) {
            return true;
        }
    }
    false
}

/// Whether all occupied nodes are marked.
fn are_marked(world: &World, marks: &[bool]) -> bool {
    let area = world.area();
    for id in 0..world.bots() {
        let bot = world.bot(id);
        if !is_marked(&area, marks, bot.head) || !is_marked(&area, marks, bot.tail) {
            return false;
        }
    }
    true
}

/// Whether the shape is a hexagon: all amoebots are contracted,
/// and it is one round the node of some amoebot.
pub(crate) fn is_hexagon(alloc: Global, world: &World) -> Result<bool, NoMemory> {
    if !are_contracted(world) {
        return Ok(false);
    }
    for id in 0..world.bots() {
        if is_centre(alloc, world, world.bot(id).head)? {
            return Ok(true);
        }
    }
    Ok(false)
}

/// Whether each amoebot has one node.
fn are_contracted(world: &World) -> bool {
    for id in 0..world.bots() {
        if !world.bot(id).is_contracted() {
            return false;
        }
    }
    true
}

/// Whether the shape is a hexagon of some radius round a node.
/// A greater one than 64 has no room in an area.
fn is_centre(alloc: Global, world: &World, centre: Node) -> Result<bool, NoMemory> {
    for radius in 1..65u16 {
        if is_full(world, centre, radius) && is_hexagon_at(alloc, world, centre, radius)? {
            return Ok(true);
        }
    }
    Ok(false)
}

/// Whether no occupied node is farther away than the radius, and all that are nearer are occupied.
fn is_full(world: &World, centre: Node, radius: u16) -> bool {
    is_within(world, centre, radius) && is_filled(world, centre, radius)
}

/// Whether such a shape is a hexagon: of the ring it has none, all,
/// or some that follow one another.
fn is_hexagon_at(
    alloc: Global,
    world: &World,
    centre: Node,
    radius: u16,
) -> Result<bool, NoMemory> {
    let ring = ring(alloc, world, centre, radius)?;
    Ok(is_arc(ring.as_slice()))
}

/// How far a node is from the centre.
fn away(centre: Node, x: i32, y: i32) -> u64 {
    let right = i64::from(x).wrapping_sub(i64::from(centre.x));
    let up = i64::from(y).wrapping_sub(i64::from(centre.y));
    right
        .unsigned_abs()
        .max(up.unsigned_abs())
        .max(right.wrapping_add(up).unsigned_abs())
}

/// Whether the node of these coordinates is occupied.
fn is_occupied(world: &World, x: i32, y: i32) -> bool {
    match (i16::try_from(x), i16::try_from(y)) {
        (Ok(x), Ok(y)) => world.occupant(Node { x, y }).is_some(),
        _ => false,
    }
}

/// Whether no amoebot is farther away than the radius.
fn is_within(world: &World, centre: Node, radius: u16) -> bool {
    for id in 0..world.bots() {
        let node = world.bot(id).head;
        if away(centre, i32::from(node.x), i32::from(node.y)) > u64::from(radius) {
            return false;
        }
    }
    true
}

/// The coordinate that is smaller by the radius.
fn below(at: i16, radius: u16) -> i32 {
    i32::from(at).wrapping_sub(i32::from(radius))
}

/// Whether all nodes that are nearer than the radius are occupied.
fn is_filled(world: &World, centre: Node, radius: u16) -> bool {
    for up in 0..2 * i32::from(radius) {
        let y = below(centre.y, radius).wrapping_add(up);
        if !is_row_filled(world, centre, radius, y) {
            return false;
        }
    }
    true
}

/// The same for the nodes of one row.
fn is_row_filled(world: &World, centre: Node, radius: u16, y: i32) -> bool {
    for right in 0..2 * i32::from(radius) {
        let x = below(centre.x, radius).wrapping_add(right);
        if away(centre, x, y) < u64::from(radius) && !is_occupied(world, x, y) {
            return false;
        }
    }
    true
}

/// Which places of the ring at the radius are occupied, side by side.
fn ring(alloc: Global, world: &World, centre: Node, radius: u16) -> Result<Vec<bool>, NoMemory> {
    let mut ring = Vec::new(alloc);
    for side in 0..6usize {
        for steps in 0..radius {
            ring.push(is_place_occupied(world, centre, radius, side, steps))?;
        }
    }
    Ok(ring)
}

/// Whether the node is occupied that lies so many steps behind the corner where the side begins.
fn is_place_occupied(world: &World, centre: Node, radius: u16, side: usize, steps: u16) -> bool {
    let corner = STEPS[side % 6];
    let way = STEPS[(side % 6 + 2) % 6];
    is_occupied(
        world,
        along(centre.x, corner.0, radius, way.0, steps),
        along(centre.y, corner.1, radius, way.1, steps),
    )
}

/// A coordinate of that node.
fn along(from: i16, corner: i32, radius: u16, way: i32, steps: u16) -> i32 {
    let out = corner.wrapping_mul(i32::from(radius));
    let round = way.wrapping_mul(i32::from(steps));
    i32::from(from).wrapping_add(out).wrapping_add(round)
}

/// Whether the true places of a circle are those of an arc.
fn is_arc(circle: &[bool]) -> bool {
    for from in 0..circle.len() {
        if is_arc_from(circle, from) {
            return true;
        }
    }
    false
}

/// Whether the true places of a circle are the first so many from one on.
fn is_arc_from(circle: &[bool], from: usize) -> bool {
    for count in 0..=circle.len() {
        if are_first(circle, from, count) {
            return true;
        }
    }
    false
}

/// Whether the true places of a circle are this many, the first from one on.
fn are_first(circle: &[bool], from: usize, count: usize) -> bool {
    for place in 0..circle.len() {
        if circle[from.wrapping_add(place) % circle.len()] != (place < count) {
            return false;
        }
    }
    true
}
