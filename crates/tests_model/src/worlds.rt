//! Worlds and what is shown of them, patches and entries.

ghost use Rattle.std.specs.Prelude.{◌≡◌, ◌≤◌, ◌∷◌, [], length, pos, IfOk};
ghost use Rattle.std.specs.List.{All};
ghost use Rattle.amoebot_state.specs.Limits.{most_bots, most_walls};
ghost use Rattle.amoebot_state.specs.Configs.{frame_of, walled_frame, with_these};
ghost use Rattle.amoebot_state.specs.Known.{AreReadInOrder};
ghost use Rattle.amoebot_state.specs.Refusals.{IsBotInRange};
ghost use Rattle.amoebot_state.proofs.ExampleLemmas.{alone_out, edge, going_out, train};

use amoebot_state::{
    Behind, Bot, Cell, CellName, Chir, End, Entry, Found, KnownZone, Moved, Patch, Port, World,
    WorldRefusal, next_cell,
};
use std::alloc::Global;
use std::process::Abort;
use std::test::Fail;
use tri_lattice::{Area, Node};

const MAXES: [u8; 8] = [1, 0, 0, 0, 0, 0, 0, 0];

const HERE: Node = Node { x: 2, y: 3 };

const NEXT: Node = Node { x: 3, y: 3 };

const ALONE: Bot = Bot {
    head: HERE,
    tail: HERE,
    rot: 0,
    chir: Chir::Plus,
    mem: [0, 0, 0, 0, 0, 0, 0, 0],
};

const STRETCHED: Bot = Bot {
    head: NEXT,
    ..ALONE
};

const BEHIND: Bot = Bot {
    head: Node { x: 1, y: 3 },
    tail: Node { x: 1, y: 3 },
    ..ALONE
};

const AWAY: Bot = Bot {
    head: Node { x: 6, y: 6 },
    tail: Node { x: 6, y: 6 },
    ..ALONE
};

const FAR: Node = Node { x: 7, y: 7 };

const EDGE: Node = Node { x: 7, y: 3 };

const AT_EDGE: Bot = Bot {
    head: EDGE,
    tail: EDGE,
    ..ALONE
};

/// A world of these amoebots in the area 0 0 8 8.
fn world_of(alloc: Global, bots: &[Bot]) -> Result<World, Fail>
    requires few { length bots.now ≤ most_bots }
    requires in_range { All IsBotInRange bots.now }
    ensures { IfOk result (λ w. w
        ≡ with_these (frame_of (record { x0 = pos 0; y0 = pos 0; w = 8; h = 8 })
        (1 ∷ 0 ∷ 0 ∷ 0 ∷ 0 ∷ 0 ∷ 0 ∷ 0 ∷ [])) bots.now) }
{
    let area = Area::new(0, 0, 8, 8).ok_or("an area")?;
    Ok(World::new(alloc, area, MAXES, bots)?)
}

/// A world of these walls and amoebots in the same area.
fn walled_of(alloc: Global, walls: &[Node], bots: &[Bot]) -> Result<World, Fail>
    requires few_walls { length walls.now ≤ most_walls }
    requires few { length bots.now ≤ most_bots }
    requires in_range { All IsBotInRange bots.now }
    ensures { IfOk result (λ w. w
        ≡ with_these (walled_frame (record { x0 = pos 0; y0 = pos 0; w = 8; h = 8 }) walls.now
        (1 ∷ 0 ∷ 0 ∷ 0 ∷ 0 ∷ 0 ∷ 0 ∷ 0 ∷ [])) bots.now) }
{
    let area = Area::new(0, 0, 8, 8).ok_or("an area")?;
    Ok(World::walled(alloc, area, walls, MAXES, bots)?)
}

/// What such a world is refused for.
fn walled_refusal(alloc: Global, walls: &[Node], bots: &[Bot]) -> Option<WorldRefusal>
    requires few_walls { length walls.now ≤ most_walls }
    requires few { length bots.now ≤ most_bots }
    requires in_range { All IsBotInRange bots.now }
{
    let area = Area::new(0, 0, 8, 8)?;
    World::walled(alloc, area, walls, MAXES, bots).err()
}

const fn port(end: End, dir: u8) -> Port {
    Port { end, dir }
}

fn refusal(alloc: Global, first: Bot, second: Bot) -> Option<WorldRefusal>
    requires first { IsBotInRange first }
    requires second { IsBotInRange second }
{
    let area = Area::new(0, 0, 8, 8)?;
    World::new(alloc, area, MAXES, &[first, second]).err()
}

#[test]
fn a_world_is_refused_for_its_first_fault(rt: HostRuntime) {
    let outside = Bot {
        head: Node { x: 9, y: 3 },
        ..ALONE
    };
    let torn = Bot {
        head: Node { x: 4, y: 3 },
        ..ALONE
    };
    let high = Bot {
        mem: [2, 0, 0, 0, 0, 0, 0, 0],
        ..ALONE
    };
    assert!(rt; refusal(rt.alloc(), ALONE, outside) == Some(WorldRefusal::OutOfBox(1)));
    assert!(rt; refusal(rt.alloc(), torn, ALONE) == Some(WorldRefusal::NotAdjacent(0)));
    assert!(rt; refusal(rt.alloc(), STRETCHED, ALONE) == Some(WorldRefusal::Overlap(1)));
    assert!(rt; refusal(rt.alloc(), high, outside) == Some(WorldRefusal::BadValue(0)));
    assert!(rt; refusal(rt.alloc(), ALONE, BEHIND) == None);
}

#[test]
fn a_walled_world_is_refused_for_its_first_fault(rt: HostRuntime) {
    let outside = Node { x: 8, y: 0 };
    let torn = Bot {
        head: Node { x: 4, y: 3 },
        ..ALONE
    };
    assert!(rt;
        walled_refusal(rt.alloc(), &[NEXT, NEXT, outside], &[ALONE])
            == Some(WorldRefusal::BadWall(1))
    );
    assert!(rt;
        walled_refusal(rt.alloc(), &[HERE, outside], &[ALONE]) == Some(WorldRefusal::BadWall(1))
    );
    assert!(rt; walled_refusal(rt.alloc(), &[HERE], &[torn]) == Some(WorldRefusal::NotAdjacent(0)));
    assert!(rt;
        walled_refusal(rt.alloc(), &[HERE], &[BEHIND, STRETCHED]) == Some(WorldRefusal::OnWall(1))
    );
    assert!(rt; walled_refusal(rt.alloc(), &[NEXT], &[ALONE]) == None);
}

/// A copy of the world of these walls and of two amoebots. It is the same as that world.
fn walled_copy(alloc: Global, walls: &[Node]) -> Result<World, Fail>
    requires { length walls.now ≤ most_walls }
    ensures { IfOk result (λ w. length w.bots ≡ 2) }
{
    let world = walled_of(alloc, walls, &[ALONE, BEHIND])?;
    let copy = world.copy(alloc)?;
    if !copy.same(&world) {
        Err("the same world")?;
    }
    Ok(copy)
}

/// Which nodes are walls of a world.
fn expect_walls(rt: &impl Abort, world: &World) {
    assert!(rt;
        [
            world.is_wall(NEXT),
            world.is_wall(HERE),
            world.is_wall(Node { x: 8, y: 3 })
        ] == [true, false, false]
    );
    assert!(rt; world.is_wall_number(63) == true);
}

/// What the first amoebot is shown of its walls.
fn expect_shown_walls(rt: &impl Abort, found: &Found) {
    assert!(rt; found.bot() == 0);
    assert!(rt;
        [
            found.behind(port(End::Head, 0)),
            found.behind(port(End::Head, 1)),
            found.behind(port(End::Head, 3))
        ] == [Behind::Wall, Behind::Empty, Behind::Bot(1)]
    );
    assert!(rt; [found.is_wall(NEXT), found.is_wall(FAR)] == [true, false]);
    assert!(rt; (found.walls().len(), found.cells().len()) == (1, 9));
}

#[test]
fn walls_stay(rt: HostRuntime) -> Result<(), Fail> {
    let copy = walled_copy(rt.alloc(), &[FAR, NEXT])?;
    expect_walls(&rt, &copy);
    expect_shown_walls(&rt, &copy.found(0));
    let open = walled_copy(rt.alloc(), &[FAR])?;
    assert!(rt; copy.same(&open) == false);
    Ok(())
}

/// A copy of the world of these amoebots.
fn copy_of(alloc: Global, bots: &[Bot]) -> Result<World, Fail>
    requires few { length bots.now ≤ most_bots }
    requires in_range { All IsBotInRange bots.now }
    ensures { IfOk result (λ w. w
        ≡ with_these (frame_of (record { x0 = pos 0; y0 = pos 0; w = 8; h = 8 })
        (1 ∷ 0 ∷ 0 ∷ 0 ∷ 0 ∷ 0 ∷ 0 ∷ 0 ∷ [])) bots.now) }
{
    let world = world_of(alloc, bots)?;
    Ok(world.copy(alloc)?)
}

/// The three amoebots of a world.
fn expect_three(rt: &impl Abort, world: &World)
    requires { length world.now.bots ≡ 3 }
{
    assert!(rt; world.bots() == 3);
    assert!(rt; *world.bot(2) == BEHIND);
    assert!(rt; world.occupant(HERE) == Some(1));
}

/// What the second one of them is shown.
fn expect_shown(rt: &impl Abort, found: &Found) {
    assert!(rt; (found.bot(), *found.own()) == (1, STRETCHED));
    assert!(rt;
        [
            found.behind(port(End::Tail, 3)),
            found.behind(port(End::Tail, 2)),
            found.behind(port(End::Head, 3))
        ] == [Behind::Bot(2), Behind::Empty, Behind::NoPort]
    );
    assert!(rt; found.cells().len() == 12);
    assert!(rt; [found.body(2).copied(), found.body(0).copied()] == [Some(BEHIND), None]);
}

#[test]
fn a_copy_shows_what_stands_round_an_amoebot(rt: HostRuntime) -> Result<(), Fail> {
    let copy = copy_of(rt.alloc(), &[AWAY, STRETCHED, BEHIND])?;
    expect_three(&rt, &copy);
    let found = copy.found(1);
    expect_shown(&rt, &found);
    let behind = found.occupant(Node { x: 1, y: 3 });
    let before = found.occupant(Node { x: 4, y: 3 });
    assert!(rt; [behind, before] == [Some(2), None]);
    Ok(())
}

/// What becomes of the cells of an amoebot that expands.
const EXPANSION: [(CellName, Cell, Cell); 2] = [
    (
        CellName::Spot(Node { x: 3, y: 3 }),
        Cell::Spot(None),
        Cell::Spot(Some(0)),
    ),
    (CellName::Body(0), Cell::Body(ALONE), Cell::Body(STRETCHED)),
];

/// The patch of the expansion.
fn expansion() -> Patch
    ensures { result ≡ going_out }
{
    let mut patch = Patch::new();
    patch.push(
        CellName::Spot(Node { x: 3, y: 3 }),
        Cell::Spot(None),
        Cell::Spot(Some(0)),
    );
    patch.push(CellName::Body(0), Cell::Body(ALONE), Cell::Body(STRETCHED));
    patch
}

/// The world of one amoebot behind its expansion, which leads to another world.
fn expanded(alloc: Global, goal: &World) -> Result<World, Fail>
    requires { goal.now ≡ alone_out }
{
    goal.keeps();
    let mut world = world_of(alloc, &[ALONE])?;
    if world.same(goal) {
        Err("another world")?;
    }
    world.apply(&expansion());
    Ok(world)
}

/// The amoebot has both nodes.
fn expect_stretched(rt: &impl Abort, world: &World) {
    assert!(rt; world.bots() == 1);
    assert!(rt; *world.bot(0) == STRETCHED);
    assert!(rt; [world.occupant(NEXT), world.occupant(HERE)] == [Some(0), Some(0)]);
}

#[test]
fn an_expansion_is_applied(rt: HostRuntime) -> Result<(), Fail> {
    let goal = world_of(rt.alloc(), &[STRETCHED])?;
    let world = expanded(rt.alloc(), &goal)?;
    assert!(rt; world.same(&goal) == true);
    expect_stretched(&rt, &world);
    Ok(())
}

/// An entry with a patch.
fn entry_of(patch: Patch) -> Entry {
    Entry {
        caller: 3,
        turn: 9,
        bot: 7,
        action: 2,
        moved: Moved::Expand(port(End::Head, 4)),
        patch,
    }
}

#[test]
fn a_patch_has_the_values_before_and_after(rt: HostRuntime) {
    assert!(rt; Patch::new().triples().len() == 0);
    assert!(rt; expansion().triples() == EXPANSION.as_slice());
}

/// A patch of as many cells as there may be: a node and nine bodies.
fn full_patch() -> Patch {
    let mut patch = Patch::new();
    patch.push(
        CellName::Spot(NEXT),
        Cell::Spot(Some(1)),
        Cell::Spot(Some(0)),
    );
    for id in 0..9 {
        patch.push(CellName::Body(id), Cell::Body(ALONE), Cell::Body(STRETCHED));
    }
    patch
}

#[test]
fn a_plain_entry_has_the_values_after(rt: HostRuntime) {
    let plain = entry_of(full_patch()).plain();
    assert!(rt; (plain.caller, plain.turn, plain.bot, plain.action) == (3, 9, 7, 2));
    assert!(rt; plain.moved == Moved::Expand(port(End::Head, 4)));
    let pairs = plain.patch.pairs();
    assert!(rt; pairs.len() == 10);
    assert!(rt;
        [pairs.first().copied(), pairs.last().copied()]
            == [
                Some((CellName::Spot(NEXT), Cell::Spot(Some(0)))),
                Some((CellName::Body(8), Cell::Body(STRETCHED)))
            ]
    );
}

#[test]
fn a_plain_entry_without_a_change_has_no_cells(rt: HostRuntime) {
    let plain = entry_of(Patch::new()).plain();
    assert!(rt; plain.caller == 3);
    assert!(rt; plain.patch.pairs().len() == 0);
}

/// The zone of an amoebot at the edge of the area, with what its cells hold.
const EDGE_CELLS: [(CellName, Cell); 6] = [
    (CellName::Body(0), Cell::Body(AT_EDGE)),
    (CellName::Spot(EDGE), Cell::Spot(Some(0))),
    (CellName::Spot(Node { x: 7, y: 4 }), Cell::Spot(None)),
    (CellName::Spot(Node { x: 6, y: 4 }), Cell::Spot(None)),
    (CellName::Spot(Node { x: 6, y: 3 }), Cell::Spot(None)),
    (CellName::Spot(Node { x: 7, y: 2 }), Cell::Spot(None)),
];

/// What it is shown, made of these cells.
fn found_at_edge(world: &World) -> Found
    requires { world.now ≡ edge }
{
    world.keeps();
    Found::make(world.area(), MAXES, 0, &EDGE_CELLS, &[])
}

#[test]
fn a_neighbourhood_is_made_of_its_cells(rt: HostRuntime) -> Result<(), Fail> {
    let world = world_of(rt.alloc(), &[AT_EDGE])?;
    let found = found_at_edge(&world);
    assert!(rt; *found.own() == AT_EDGE);
    assert!(rt; found.behind(port(End::Head, 0)) == Behind::Edge);
    assert!(rt; (found.area(), found.maxes()) == (world.area(), MAXES));
    Ok(())
}

/// The zone of an expanded amoebot with a neighbour behind its tail,
/// in the order in which its cells are read.
const TRAIN_CELLS: [(CellName, Cell); 12] = [
    (CellName::Body(0), Cell::Body(STRETCHED)),
    (CellName::Spot(Node { x: 3, y: 3 }), Cell::Spot(Some(0))),
    (CellName::Spot(Node { x: 2, y: 3 }), Cell::Spot(Some(0))),
    (CellName::Spot(Node { x: 4, y: 3 }), Cell::Spot(None)),
    (CellName::Spot(Node { x: 3, y: 4 }), Cell::Spot(None)),
    (CellName::Spot(Node { x: 2, y: 4 }), Cell::Spot(None)),
    (CellName::Spot(Node { x: 3, y: 2 }), Cell::Spot(None)),
    (CellName::Spot(Node { x: 4, y: 2 }), Cell::Spot(None)),
    (CellName::Spot(Node { x: 1, y: 4 }), Cell::Spot(None)),
    (CellName::Spot(Node { x: 1, y: 3 }), Cell::Spot(Some(1))),
    (CellName::Spot(Node { x: 2, y: 2 }), Cell::Spot(None)),
    (CellName::Body(1), Cell::Body(BEHIND)),
];

/// Whether the cells of that zone are read in this order.
fn train_is_read(world: &World) -> bool
    requires { world.now ≡ train }
{
    world.keeps();
    both_read(&world.area(), 0, &TRAIN_CELLS)
}

#[test]
fn a_zone_is_found_while_its_cells_are_read(rt: HostRuntime) -> Result<(), Fail> {
    let world = world_of(rt.alloc(), &[STRETCHED, BEHIND])?;
    assert!(rt; train_is_read(&world));
    Ok(())
}

/// Whether a zone that is kept and one that is made anew both give these cells one by one,
/// and then no more.
fn both_read(area: &Area, id: u16, cells: &[(CellName, Cell)]) -> bool
    requires { AreReadInOrder area.now id cells.now }
{
    let mut zone = KnownZone::new(9);
    zone.begin(id);
    for (read, (name, cell)) in cells.iter().enumerate() {
        if zone.next(read) != Some(*name) || next_cell(area, id, &cells[..read]) != Some(*name) {
            return false;
        }
        zone.push(area, cell);
    }
    zone.next(cells.len()).is_none() && next_cell(area, id, cells).is_none()
}
