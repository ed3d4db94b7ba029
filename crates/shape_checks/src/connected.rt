ghost use Rattle.std.specs.Prelude.{◌≡◌, ◌<◌, ◌+◌, ◌*◌, length, Decides, IfOk, OnOk, IsTrue};
ghost use Rattle.tri_lattice.specs.{declared.node.Node.{Node}, Extent.{is_in}, Sets.{IsConnected}};
ghost use Rattle.amoebot_state.specs.Occupied.{occupied};
ghost use Rattle.shape_checks.specs.Marks.{node_mark, unmarked_count, with_mark, with_met, met, IsSearch};
ghost use Rattle.shape_checks.specs.Marks.{IsReach};

use amoebot_state::{NoMemory, World};
use std::alloc::Global;
use tri_lattice::{Area, Node};

/// Whether the shape is connected: any two occupied nodes are joined
/// by a path of adjacent occupied nodes.
/// A world with no amoebot is.
///
/// The time is linear in the size of the area.
pub fn is_connected(alloc: Global, world: &World) -> Result<bool, NoMemory>
    ensures { IfOk result (λ b. Decides b (IsConnected (occupied world.now))) }
{
    world.keeps();
    if world.bots() == 0 {
        return Ok(true);
    }
    let marks = reached(alloc, world, world.bot(0).head)?;
    Ok(are_marked(world, marks.as_slice()))
}

/// Marks, by their numbers, the nodes to which a path of occupied nodes leads from an occupied one.
fn reached(alloc: Global, world: &World, start: Node) -> Result<Vec<bool>, NoMemory>
    requires { IsTrue (occupied world.now start) }
    ensures { IfOk result (λ marks. IsReach (occupied world.now) world.now.area start marks.items) }
{
    world.keeps();
    let area = world.area();
    let mut marks = vec![in alloc; false; area.size() as usize]?;
    let mut order = Vec::new(alloc);
    mark(&area, &mut marks, &mut order, start)?;
    let mut done = 0;
    while done < order.len() {
        mark_round(world, &mut marks, &mut order, done)?;
        done += 1;
    }
    Ok(marks)
}

/// Marks the occupied neighbours of the node that was met as this number.
fn mark_round(
    world: &World,
    marks: &mut Vec<bool>,
    order: &mut Vec<Node>,
    number: usize,
) -> Result<(), NoMemory>
    requires search { IsSearch (occupied world.now) world.now.area marks.old.items order.old.items number }
    requires below { number < length order.old.items }
    ensures search { OnOk result (
        IsSearch (occupied world.now) world.now.area marks.new.items order.new.items (number + 1)) }
    ensures start { OnOk result (met order.new.items 0 ≡ met order.old.items 0) }
    ensures measure { OnOk result (
        unmarked_count marks.new.items + length order.new.items
        ≡ unmarked_count marks.old.items + length order.old.items) }
{
    world.keeps();
    let area = world.area();
    let node = order[number];
    for next in node.ring() {
        if world.occupant(next).is_some() {
            mark(&area, marks, order, next)?;
        }
    }
    Ok(())
}

/// Marks a node of the area and notes it as met, if it is not marked yet.
fn mark(
    area: &Area,
    marks: &mut Vec<bool>,
    order: &mut Vec<Node>,
    node: Node,
) -> Result<(), NoMemory>
    requires inside { IsTrue (is_in area.now node) }
    requires size { length marks.old.items ≡ area.now.w * area.now.h }
    ensures marks { OnOk result (marks.new.items ≡ with_mark area.now marks.old.items node) }
    ensures order { OnOk result (order.new.items ≡ with_met area.now marks.old.items order.old.items node) }
{
    if let Some(number) = area.index(node) {
        if !marks[number as usize] {
            marks[number as usize] = true;
            order.push(node)?;
        }
    }
    Ok(())
}

/// Whether all occupied nodes are marked.
pub(crate) fn are_marked(world: &World, marks: &[bool]) -> bool
    requires { length marks.now ≡ world.now.area.w * world.now.area.h }
    ensures { Decides result ((v : Node) → IsTrue (occupied world.now v)
        → IsTrue (node_mark world.now.area marks.now v)) }
{
    world.keeps();
    let area = world.area();
    for id in 0..world.bots() {
        let bot = world.bot(id);
        if !is_marked(&area, marks, bot.head) || !is_marked(&area, marks, bot.tail) {
            return false;
        }
    }
    true
}

/// Whether a node is marked.
pub(crate) fn is_marked(area: &Area, marks: &[bool], node: Node) -> bool
    requires { length marks.now ≡ area.now.w * area.now.h }
    ensures { result ≡ node_mark area.now marks.now node }
{
    match area.index(node) {
        Some(number) => marks[number as usize],
        None => false,
    }
}
