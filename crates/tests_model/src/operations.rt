ghost use Rattle.std.specs.Prelude.{◌≡◌, ◌<◌, ◌≤◌, length};
ghost use Rattle.std.specs.List.{All};
ghost use Rattle.tri_lattice.specs.Lattice.{IsNear};
ghost use Rattle.amoebot_state.specs.Limits.{most_bots};
ghost use Rattle.amoebot_state.specs.Refusals.{IsBotInRange};
ghost use Rattle.amoebot_state.specs.declared.verdict.Failure.{Failure};
ghost use Rattle.model_ops.specs.Reaches.{move};
ghost use Rattle.model_ops.specs.Sites.{done};
ghost use Rattle.model_ops.specs.WorkingCopies.{IsUnmoved, own_id, copy_after};

use amoebot_state::{Bot, Cell, CellName, Chir, End, Failure, Found, Moved, Patch, Port, World};
use model_ops::{Peer, Site};
use std::alloc::Global;
use std::process::Abort;
use std::test::Fail;
use tri_lattice::{Area, Node};

const MAXES: [u8; 8] = [3, 0, 0, 0, 0, 0, 0, 0];

/// An amoebot with rotation 0 that goes round as the global directions, by its head and its tail.
fn bot(head: (u8, u8), tail: (u8, u8)) -> Bot
    ensures { IsBotInRange result }
{
    turned_bot(head, tail, 0, Chir::Plus)
}

fn turned_bot(head: (u8, u8), tail: (u8, u8), rot: u8, chir: Chir) -> Bot
    ensures { IsBotInRange result }
{
    Bot {
        head: node(head),
        tail: node(tail),
        rot: rot % 6,
        chir,
        mem: [0; 8],
    }
}

fn node(at: (u8, u8)) -> Node
    ensures { IsNear result }
{
    Node {
        x: i16::from(at.0),
        y: i16::from(at.1),
    }
}

const fn head(dir: u8) -> Port {
    Port {
        end: End::Head,
        dir,
    }
}

const fn tail(dir: u8) -> Port {
    Port {
        end: End::Tail,
        dir,
    }
}

/// What the first amoebot of these is shown in the area 0 0 8 8.
fn found(alloc: Global, bots: &[Bot]) -> Result<Found, Fail>
    requires some { 0 < length bots.now }
    requires few { length bots.now ≤ most_bots }
    requires in_range { All IsBotInRange bots.now }
{
    let area = Area::new(0, 0, 8, 8).ok_or("an area")?;
    let world = World::new(alloc, area, MAXES, bots)?;
    Ok(world.found(0))
}

/// What an activation changes: writes of the first variable, each through a port or without one,
/// and then a movement.
fn activation(
    found: &Found,
    writes: &[(Option<Port>, i32)],
    moved: Moved,
    guard: bool,
) -> Result<Patch, Failure> {
    let mut site = Site::new(found);
    for (port, value) in writes {
        write_first(&mut site, *port, *value)?;
    }
    carry_out(&mut site, moved, guard)?;
    Ok(site.patch())
}

fn write_first(site: &mut Site<'_>, port: Option<Port>, value: i32) -> Result<(), Failure>
    ensures { IsUnmoved site.old → IsUnmoved site.new }
{
    site.write(port, 0, value)
}

fn carry_out(site: &mut Site<'_>, moved: Moved, guard: bool) -> Result<(), Failure>
    ensures value { result ≡ done (move site.old.reached (own_id site.old) guard moved) }
    ensures after { site.new ≡ copy_after site.old (move site.old.reached (own_id site.old) guard moved) }
{
    match moved {
        Moved::None => Ok(()),
        Moved::Expand(port) => site.expand(port),
        Moved::Contract(end) => site.contract(end, guard),
        Moved::Push(port) => site.push(port),
        Moved::Pull(port) => site.pull(port),
    }
}

/// What becomes of a cell: its name, its value before and its value after.
type Triple = (CellName, Cell, Cell);

fn spot(at: (u8, u8), before: Option<u16>, after: Option<u16>) -> Triple {
    (
        CellName::Spot(node(at)),
        Cell::Spot(before),
        Cell::Spot(after),
    )
}

fn body(id: u16, before: Bot, after: Bot) -> Triple {
    (CellName::Body(id), Cell::Body(before), Cell::Body(after))
}

/// The amoebot with another value of the first variable.
fn valued(bot: Bot, value: u8) -> Bot {
    Bot {
        mem: [value, 0, 0, 0, 0, 0, 0, 0],
        ..bot
    }
}

/// That the activation changes these cells.
fn expect_changes(rt: &impl Abort, found: &Found, moved: Moved, cells: &[Triple]) {
    let patch = activation(found, &[], moved, false).ok();
    assert!(rt; patch.is_some());
    if let Some(patch) = patch {
        assert!(rt; patch.triples() == cells);
    }
}

/// How an activation without writes fails.
fn failure(found: &Found, moved: Moved, guard: bool) -> Option<Failure> {
    activation(found, &[], moved, guard).err()
}

#[test]
fn writes_are_undone_with_a_movement_that_fails(rt: HostRuntime) -> Result<(), Fail> {
    let shown = found(rt.alloc(), &[bot((2, 3), (2, 3)), bot((3, 3), (3, 3))])?;
    let failed = activation(&shown, &[(None, 2)], Moved::Expand(head(0)), false).err();
    assert!(rt; failed == Some(Failure::Occupied));
    Ok(())
}

#[test]
fn a_push_takes_a_node_of_an_expanded_neighbour(rt: HostRuntime) -> Result<(), Fail> {
    let shown = found(rt.alloc(), &[bot((2, 3), (2, 3)), bot((3, 3), (4, 3))])?;
    let cells = [
        spot((3, 3), Some(1), Some(0)),
        body(0, bot((2, 3), (2, 3)), bot((3, 3), (2, 3))),
        body(1, bot((3, 3), (4, 3)), bot((4, 3), (4, 3))),
    ];
    expect_changes(&rt, &shown, Moved::Push(head(0)), &cells);
    Ok(())
}

#[test]
fn a_pull_hands_a_node_to_a_contracted_neighbour(rt: HostRuntime) -> Result<(), Fail> {
    let shown = found(rt.alloc(), &[bot((3, 3), (2, 3)), bot((1, 3), (1, 3))])?;
    let cells = [
        spot((2, 3), Some(0), Some(1)),
        body(0, bot((3, 3), (2, 3)), bot((3, 3), (3, 3))),
        body(1, bot((1, 3), (1, 3)), bot((2, 3), (1, 3))),
    ];
    expect_changes(&rt, &shown, Moved::Pull(tail(3)), &cells);
    Ok(())
}

#[test]
fn the_guard_holds_a_node_between_two(rt: HostRuntime) -> Result<(), Fail> {
    let shown = found(rt.alloc(), &[bot((3, 3), (2, 3)), bot((1, 3), (1, 3))])?;
    let leaves = Moved::Contract(End::Tail);
    assert!(rt; failure(&shown, leaves, true) == Some(Failure::WouldSplit));
    let cells = [
        spot((2, 3), Some(0), None),
        body(0, bot((3, 3), (2, 3)), bot((3, 3), (3, 3))),
    ];
    expect_changes(&rt, &shown, leaves, &cells);
    Ok(())
}

#[test]
fn two_ports_lead_to_one_neighbour(rt: HostRuntime) -> Result<(), Fail> {
    let other = bot((2, 4), (2, 4));
    let shown = found(rt.alloc(), &[bot((3, 3), (2, 3)), other])?;
    let mut site = Site::new(&shown);
    site.write(Some(head(2)), 0, 1)?;
    assert!(rt; site.read(Some(tail(1)), 0)? == 1);
    assert!(rt; site.peer(head(2))?.dir == 5);
    assert!(rt; site.peer(tail(1))?.dir == 4);
    let writes = [(Some(head(2)), 1), (Some(tail(1)), 2)];
    let patch = activation(&shown, &writes, Moved::None, false)?;
    assert!(rt; patch.triples() == [body(1, other, valued(other, 2))].as_slice());
    Ok(())
}

#[test]
fn what_stays_as_it_was_found_is_not_listed(rt: HostRuntime) -> Result<(), Fail> {
    let shown = found(rt.alloc(), &[bot((3, 3), (3, 3)), bot((2, 4), (2, 4))])?;
    let there_and_back = [(None, 3), (Some(head(2)), 0), (None, 0)];
    let patch = activation(&shown, &there_and_back, Moved::None, false)?;
    assert!(rt; patch.triples().len() == 0);
    Ok(())
}

#[test]
fn a_neighbour_is_expanded_across_two_ports(rt: HostRuntime) -> Result<(), Fail> {
    let other = turned_bot((4, 3), (3, 4), 2, Chir::Minus);
    let shown = found(rt.alloc(), &[bot((3, 3), (3, 3)), other])?;
    let site = Site::new(&shown);
    let at_head = Peer {
        expanded: true,
        at_head: true,
        dir: 5,
    };
    let at_tail = Peer {
        expanded: true,
        at_head: false,
        dir: 4,
    };
    assert!(rt; site.peer(head(0))? == at_head);
    assert!(rt; site.peer(head(1))? == at_tail);
    let cells = [
        spot((3, 4), Some(1), Some(0)),
        body(0, bot((3, 3), (3, 3)), bot((3, 4), (3, 3))),
        body(1, other, turned_bot((4, 3), (4, 3), 2, Chir::Minus)),
    ];
    expect_changes(&rt, &shown, Moved::Push(head(1)), &cells);
    Ok(())
}

/// For the global directions 0 to 5: the node there of (3, 3), and the next one behind it.
const NEXT: [(u8, u8); 6] = [(4, 3), (3, 4), (2, 4), (2, 3), (3, 2), (4, 2)];

const FAR: [(u8, u8); 6] = [(5, 3), (3, 5), (1, 5), (1, 3), (3, 1), (5, 1)];

/// A rotation and a chirality with the local directions of the global ones 0 to 5.
const LOCALS: [(u8, Chir, [u8; 6]); 4] = [
    (0, Chir::Plus, [0, 1, 2, 3, 4, 5]),
    (2, Chir::Plus, [4, 5, 0, 1, 2, 3]),
    (5, Chir::Minus, [5, 4, 3, 2, 1, 0]),
    (1, Chir::Minus, [1, 0, 5, 4, 3, 2]),
];

#[test]
fn pushes_go_by_local_directions(rt: HostRuntime) -> Result<(), Fail> {
    for (rot, chir, locals) in LOCALS {
        for dir in 0..6 {
            let (next, far) = (NEXT[dir], FAR[dir]);
            let own = turned_bot((3, 3), (3, 3), rot, chir);
            let shown = found(rt.alloc(), &[own, bot(next, far)])?;
            let cells = [
                spot(next, Some(1), Some(0)),
                body(0, own, turned_bot(next, (3, 3), rot, chir)),
                body(1, bot(next, far), bot(far, far)),
            ];
            expect_changes(&rt, &shown, Moved::Push(head(locals[dir])), &cells);
        }
    }
    Ok(())
}

#[test]
fn pulls_go_by_local_directions(rt: HostRuntime) -> Result<(), Fail> {
    for (rot, chir, locals) in LOCALS {
        for dir in 0..6 {
            let (next, far) = (NEXT[dir], FAR[dir]);
            let own = turned_bot((3, 3), next, rot, chir);
            let shown = found(rt.alloc(), &[own, bot(far, far)])?;
            let cells = [
                spot(next, Some(0), Some(1)),
                body(0, own, turned_bot((3, 3), (3, 3), rot, chir)),
                body(1, bot(far, far), bot(next, far)),
            ];
            expect_changes(&rt, &shown, Moved::Pull(tail(locals[dir])), &cells);
        }
    }
    Ok(())
}

/// A call of a site.
#[derive(Clone, Copy)]
enum Call {
    Connected,
    Free,
    Read,
    Write(i32),
    Peer,
    Expand,
    Push,
    Pull,
}

/// How a call through a port fails.
fn call_failure(site: &mut Site<'_>, call: Call, port: Port) -> Option<Failure> {
    match call {
        Call::Connected => site.connected(port).err(),
        Call::Free => site.is_free(port).err(),
        Call::Read => site.read(Some(port), 0).err(),
        Call::Write(value) => site.write(Some(port), 0, value).err(),
        Call::Peer => site.peer(port).err(),
        Call::Expand => site.expand(port).err(),
        Call::Push => site.push(port).err(),
        Call::Pull => site.pull(port).err(),
    }
}

/// For a contracted amoebot on (7, 3), at the area's edge,
/// with a contracted neighbour on (6, 3) and one that is expanded to (7, 5) from (7, 4):
/// which condition names the failure, of those that fail together.
const OF_CONTRACTED: [(Call, End, u8, Failure); 25] = [
    (Call::Connected, End::Tail, 3, Failure::NoPort),
    (Call::Connected, End::Head, 6, Failure::NoPort),
    (Call::Free, End::Tail, 2, Failure::NoPort),
    (Call::Read, End::Tail, 3, Failure::NoPort),
    (Call::Read, End::Tail, 2, Failure::NoPort),
    (Call::Read, End::Head, 2, Failure::NoNeighbour),
    (Call::Read, End::Head, 0, Failure::NoNeighbour),
    (Call::Write(9), End::Tail, 3, Failure::NoPort),
    (Call::Write(9), End::Head, 255, Failure::NoPort),
    (Call::Write(9), End::Head, 2, Failure::NoNeighbour),
    (Call::Write(4), End::Head, 3, Failure::OutOfRange),
    (Call::Write(-1), End::Head, 3, Failure::OutOfRange),
    (Call::Peer, End::Tail, 2, Failure::NoPort),
    (Call::Peer, End::Head, 2, Failure::NoNeighbour),
    (Call::Expand, End::Tail, 0, Failure::NoPort),
    (Call::Expand, End::Tail, 3, Failure::NoPort),
    (Call::Expand, End::Head, 0, Failure::Edge),
    (Call::Expand, End::Head, 3, Failure::Occupied),
    (Call::Push, End::Tail, 2, Failure::NoPort),
    (Call::Push, End::Tail, 3, Failure::NoPort),
    (Call::Push, End::Head, 0, Failure::NoNeighbour),
    (Call::Push, End::Head, 3, Failure::PeerNotExpanded),
    (Call::Pull, End::Tail, 2, Failure::NotExpanded),
    (Call::Pull, End::Head, 2, Failure::NotExpanded),
    (Call::Pull, End::Head, 1, Failure::NotExpanded),
];

#[test]
fn a_contracted_amoebot_fails_by_the_first_condition(rt: HostRuntime) -> Result<(), Fail> {
    let shown = found(
        rt.alloc(),
        &[
            bot((7, 3), (7, 3)),
            bot((6, 3), (6, 3)),
            bot((7, 4), (7, 5)),
        ],
    )?;
    let mut site = Site::new(&shown);
    for (call, end, dir, failure) in OF_CONTRACTED {
        assert!(rt; call_failure(&mut site, call, Port { end, dir }) == Some(failure));
    }
    assert!(rt; site.contract(End::Head, true) == Err(Failure::NotExpanded));
    assert!(rt; site.write(None, 0, 4) == Err(Failure::OutOfRange));
    Ok(())
}

#[test]
fn outside_the_area_nothing_is_there_and_nothing_is_free(rt: HostRuntime) -> Result<(), Fail> {
    let shown = found(rt.alloc(), &[bot((7, 7), (7, 7))])?;
    let site = Site::new(&shown);
    for (dir, is_free) in [
        (0, false),
        (1, false),
        (2, false),
        (3, true),
        (4, true),
        (5, false),
    ] {
        assert!(rt; site.connected(head(dir)) == Ok(false));
        assert!(rt; site.is_free(head(dir)) == Ok(is_free));
    }
    Ok(())
}

/// The same for one that is expanded to (7, 3) from (6, 3), with a contracted neighbour on (5, 3).
const OF_EXPANDED: [(Call, End, u8, Failure); 13] = [
    (Call::Connected, End::Head, 3, Failure::NoPort),
    (Call::Free, End::Tail, 0, Failure::NoPort),
    (Call::Expand, End::Head, 3, Failure::NotContracted),
    (Call::Expand, End::Head, 0, Failure::NotContracted),
    (Call::Expand, End::Head, 1, Failure::NotContracted),
    (Call::Push, End::Head, 3, Failure::NotContracted),
    (Call::Push, End::Head, 4, Failure::NotContracted),
    (Call::Push, End::Tail, 3, Failure::NotContracted),
    (Call::Pull, End::Head, 3, Failure::NoPort),
    (Call::Pull, End::Tail, 6, Failure::NoPort),
    (Call::Pull, End::Head, 0, Failure::NoNeighbour),
    (Call::Pull, End::Head, 4, Failure::NoNeighbour),
    (Call::Pull, End::Head, 1, Failure::PeerNotContracted),
];

#[test]
fn an_expanded_amoebot_fails_by_the_first_condition(rt: HostRuntime) -> Result<(), Fail> {
    let shown = found(
        rt.alloc(),
        &[
            bot((7, 3), (6, 3)),
            bot((5, 3), (5, 3)),
            bot((7, 4), (7, 5)),
        ],
    )?;
    let mut site = Site::new(&shown);
    for (call, end, dir, failure) in OF_EXPANDED {
        assert!(rt; call_failure(&mut site, call, Port { end, dir }) == Some(failure));
    }
    assert!(rt; site.contract(End::Tail, true) == Err(Failure::WouldSplit));
    Ok(())
}

#[test]
fn nodes_outside_the_area_belong_to_no_arc(rt: HostRuntime) -> Result<(), Fail> {
    let (own, beyond) = (bot((0, 0), (1, 0)), bot((2, 0), (2, 0)));
    let apart = found(rt.alloc(), &[own, beyond])?;
    assert!(rt; failure(&apart, Moved::Contract(End::Tail), true) == Some(Failure::WouldSplit));
    assert!(rt; failure(&apart, Moved::Contract(End::Head), true) == None);
    let joined = found(rt.alloc(), &[own, beyond, bot((1, 1), (0, 1))])?;
    assert!(rt; failure(&joined, Moved::Contract(End::Tail), true) == None);
    Ok(())
}

/// A site answers each question about a pair as one that searches does,
/// also for directions that there are none.
/// It has a draft once a movement was tried, and one that fails changes nothing.
fn answers_alike(rt: &impl Abort, found: &Found) {
    let site = Site::new(found);
    let mut searching = Site::new(found);
    assert!(rt; searching.expand(tail(6)).is_err());
    for dir in 0..8u8 {
        for port in [head(dir), tail(dir)].iter() {
            assert!(rt; site.connected(*port) == searching.connected(*port));
            assert!(rt; site.is_free(*port) == searching.is_free(*port));
            assert!(rt; site.read(Some(*port), 0) == searching.read(Some(*port), 0));
            assert!(rt; site.peer(*port) == searching.peer(*port));
        }
    }
    assert!(rt; site.read(None, 0) == searching.read(None, 0));
}

#[test]
fn a_site_answers_as_a_search_does(rt: HostRuntime) -> Result<(), Fail> {
    let alloc = rt.alloc();
    let crowd = [
        turned_bot((3, 3), (2, 3), 4, Chir::Minus),
        bot((4, 3), (4, 3)),
        bot((3, 2), (4, 2)),
        bot((1, 3), (1, 3)),
    ];
    let corner = [
        turned_bot((0, 0), (0, 0), 1, Chir::Plus),
        bot((1, 0), (2, 0)),
    ];
    answers_alike(&rt, &found(alloc, &crowd)?);
    answers_alike(&rt, &found(alloc, &corner)?);
    answers_alike(&rt, &found(alloc, &[bot((7, 7), (6, 7))])?);
    Ok(())
}
