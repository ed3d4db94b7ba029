//! Shapes that are drawn or made, and their measures.

ghost use Rattle.std.specs.Prelude.{◌≡◌, true};
ghost use Rattle.std.specs.List.{All};
ghost use Rattle.tri_lattice.specs.Lattice.{IsNear};
ghost use Rattle.amoebot_state.specs.Refusals.{IsBotInRange};

use crate::drawings::{LARGE, SMALL, Shape};
use crate::slow_shapes;
use amoebot_state::{Bot, World};
use shape_checks::{count_value, is_connected, is_hexagon};
use std::alloc::Global;
use std::process::Abort;
use std::test::Fail;
use tri_lattice::{Area, Node};

/// Whether both coordinates are such that each step stays in range.
pub(crate) fn is_near(node: Node) -> bool
    ensures { result ≡ true → IsNear node }
{
    node.x >= -16000 && node.x <= 16000 && node.y >= -16000 && node.y <= 16000
}

/// Whether an amoebot may stand in some world.
fn is_in_range(bot: Bot) -> bool
    ensures { result ≡ true → IsBotInRange bot }
{
    is_near(bot.head) && is_near(bot.tail) && bot.rot < 6
}

/// Whether each amoebot may.
fn are_in_range(bots: &[Bot]) -> bool
    ensures { result ≡ true → All IsBotInRange bots.now }
{
    for bot in bots {
        if !is_in_range(*bot) {
            return false;
        }
    }
    true
}

/// An amoebot on these nodes, with a value in its last variable.
fn bot(head: Node, tail: Node, value: u8) -> Bot {
    Bot {
        head,
        tail,
        mem: [0, 0, 0, 0, 0, 0, 0, value],
        ..Bot::default()
    }
}

/// The world of these amoebots.
fn world_of(alloc: Global, area: Area, bots: &[Bot]) -> Result<World, Fail> {
    if bots.len() > 4096 || !are_in_range(bots) {
        return Err(Fail::from("amoebots of a world"));
    }
    Ok(World::new(alloc, area, [0, 0, 0, 0, 0, 0, 0, 9], bots)?)
}

/// The world that is drawn.
fn drawn(alloc: Global, shape: &Shape) -> Result<World, Fail> {
    let h = shape.drawing.len() / usize::from(shape.w.max(1));
    let h = u16::try_from(h).ok().ok_or("a height")?;
    let area = Area::new(shape.x0, shape.y0, shape.w, h).ok_or("an area")?;
    let mut bots = Vec::new(alloc);
    let mut tail = area.node(0);
    let mut number = 0;
    for byte in shape.drawing.bytes() {
        if number >= area.size() {
            return Err(Fail::from("whole rows"));
        }
        let node = area.node(number);
        match byte {
            b'o' => bots.push(bot(node, node, 0))?,
            b'<' => tail = node,
            b'=' => bots.push(bot(node, tail, 0))?,
            _ => {}
        }
        number += 1;
    }
    world_of(alloc, area, bots.as_slice())
}

/// The searches find that a world is connected or not, and a hexagon or not.
fn search(
    rt: &impl Abort,
    alloc: Global,
    world: &World,
    connected: bool,
    hexagon: bool,
    name: &str,
) -> Result<(), Fail> {
    assert!(rt; is_connected(alloc, world)? == connected, "{name}");
    assert!(rt; is_hexagon(alloc, world)? == hexagon, "{name}");
    Ok(())
}

/// The slow functions find the same.
fn try_all(
    rt: &impl Abort,
    alloc: Global,
    world: &World,
    connected: bool,
    hexagon: bool,
    name: &str,
) -> Result<(), Fail> {
    assert!(rt;
        slow_shapes::is_connected(alloc, world)? == connected,
        "{name}"
    );
    assert!(rt; slow_shapes::is_hexagon(alloc, world)? == hexagon, "{name}");
    Ok(())
}

fn measure_all(rt: &impl Abort, alloc: Global, shapes: &[Shape]) -> Result<(), Fail> {
    for shape in shapes {
        let world = drawn(alloc, shape)?;
        let Shape {
            connected,
            hexagon,
            drawing,
            ..
        } = *shape;
        search(rt, alloc, &world, connected, hexagon, drawing)?;
        try_all(rt, alloc, &world, connected, hexagon, drawing)?;
    }
    Ok(())
}

#[test]
fn small_shapes_are_measured(rt: HostRuntime) -> Result<(), Fail> {
    measure_all(&rt, rt.alloc(), &SMALL)
}

#[test]
fn larger_shapes_are_measured(rt: HostRuntime) -> Result<(), Fail> {
    measure_all(&rt, rt.alloc(), &LARGE)
}

/// A large shape: 4,096 nodes, but one fewer in those that lack a node.
#[derive(Clone, Copy, PartialEq, Eq)]
enum Large {
    /// All nodes of an area of 64 by 64.
    Filled,
    /// A square of 64 by 64 in an area of 128 by 128.
    Square,
    /// One long row that turns back again and again.
    Snake,
    /// The same without a node at its first turn.
    CutSnake,
    /// Radius 37: the 3,997 nodes within 36 of the centre, and 99 of the last ring.
    Hexagon,
    /// The same without a node amid those of the last ring.
    TwoArcs,
}

impl Large {
    fn has(self, node: Node) -> bool {
        match self {
            Large::Filled => true,
            Large::Square => node.x < 64 && node.y < 64,
            Large::Snake => is_in_snake(node),
            Large::CutSnake => is_in_snake(node) && node != Node { x: 127, y: 1 },
            Large::Hexagon => is_in_hexagon(node),
            Large::TwoArcs => is_in_hexagon(node) && node != Node { x: 37, y: 74 },
        }
    }

    fn world(self, alloc: Global) -> Result<World, Fail> {
        let side = if self == Large::Filled { 64 } else { 128 };
        let area = Area::new(0, 0, side, side).ok_or("an area")?;
        let mut bots = Vec::new(alloc);
        for number in 0..area.size() {
            let node = area.node(number);
            if self.has(node) {
                bots.push(bot(node, node, 0))?;
            }
        }
        world_of(alloc, area, bots.as_slice())
    }
}

fn is_in_snake(node: Node) -> bool {
    let Node { x, y } = node;
    match y % 4 {
        1 => x == 127 && y < 62,
        3 => x == 0 && y < 62,
        _ => y < 62 || (y == 62 && x >= 31),
    }
}

/// The centre is (37, 37). Of the last ring there are two sides and 25 nodes of the third.
fn is_in_hexagon(node: Node) -> bool {
    let (x, y) = (i32::from(node.x), i32::from(node.y));
    let (right, up) = (x - 37, y - 37);
    let is_within = right.unsigned_abs() <= 36
        && up.unsigned_abs() <= 36
        && (right + up).unsigned_abs() <= 36;
    let is_on_side_0 = x + y == 111 && x >= 38 && x <= 74;
    let is_on_side_1 = y == 74 && x >= 1 && x <= 37;
    let is_on_side_2 = x == 0 && y >= 50 && y <= 74;
    is_within || is_on_side_0 || is_on_side_1 || is_on_side_2
}

/// The large shapes: how many nodes each has, whether it is connected, whether it is a hexagon,
/// and its name.
fn large_shapes() -> [(Large, u16, bool, bool, &'static str); 6] {
    [
        (Large::Filled, 4096, true, false, "filled"),
        (Large::Square, 4096, true, false, "square"),
        (Large::Snake, 4096, true, false, "snake"),
        (Large::CutSnake, 4095, false, false, "cut snake"),
        (Large::Hexagon, 4096, true, true, "hexagon"),
        (Large::TwoArcs, 4095, true, false, "two arcs"),
    ]
}

#[test]
fn shapes_of_4096_nodes_are_measured(rt: HostRuntime) -> Result<(), Fail> {
    for (large, bots, connected, hexagon, name) in large_shapes() {
        let world = large.world(rt.alloc())?;
        assert!(rt; world.bots() == bots, "{name}");
        search(&rt, rt.alloc(), &world, connected, hexagon, name)?;
    }
    Ok(())
}

#[test]
fn shapes_of_4096_nodes_are_plainly_so(rt: HostRuntime) -> Result<(), Fail> {
    for (large, _, connected, hexagon, name) in large_shapes() {
        let world = large.world(rt.alloc())?;
        try_all(&rt, rt.alloc(), &world, connected, hexagon, name)?;
    }
    Ok(())
}

#[test]
fn values_are_counted_to_the_last_amoebot(rt: HostRuntime) -> Result<(), Fail> {
    let area = Area::new(0, 0, 4, 1).ok_or("an area")?;
    let mut bots = Vec::new(rt.alloc());
    for (x, value) in [(0, 9), (1, 4), (2, 0), (3, 9)] {
        let node = Node { x, y: 0 };
        bots.push(bot(node, node, value))?;
    }
    let world = world_of(rt.alloc(), area, bots.as_slice())?;
    assert!(rt; count_value(&world, 7, 9) == 2);
    assert!(rt; count_value(&world, 7, 4) == 1);
    assert!(rt; count_value(&world, 7, 1) == 0);
    assert!(rt; count_value(&world, 0, 0) == 4);
    Ok(())
}
