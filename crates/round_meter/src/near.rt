//! The amoebots whose zones may have a changed cell.
ghost use Rattle.std.specs.{Prelude.{◌≡◌, ◌+◌, ◌≤◌, ◌<◌, ◌∷◌, [], length, nat_eq}, List.{All, fold}};
ghost use Rattle.tri_lattice.specs.Lattice.{IsNear, node_eq};
ghost use Rattle.amoebot_state.specs.{Limits.{most_pairs}, Storage.{with_new}};
ghost use Rattle.arrayvec.specs.ArrayVec.{array_vec_len};
ghost use Rattle.round_meter.specs.Asking.{IsInReach, cells_among, nodes_of_cell, nodes_asked, ids_on};
ghost use Rattle.round_meter.specs.Asking.{ids_round, ids_asked, near_room, near_nodes_room};

use amoebot_state::{Cell, CellName, World};
use arrayvec::ArrayVec;
use tri_lattice::Node;

/// Room for the nodes of ten cells: two for each.
const NODE_ROOM: usize = 20;

/// Room for the amoebots on and round these nodes: seven for each.
const NEAR_ROOM: usize = 140;

/// Nodes, each once.
type NearNodes = ArrayVec<Node, NODE_ROOM>;

/// Amoebots, each once.
pub(crate) type NearIds = ArrayVec<u16, NEAR_ROOM>;

/// The amoebots that are to be asked again once these cells of the world have new values:
/// those on and round the cells' nodes, each once.
pub(crate) fn ids_near(world: &World, changes: &[(CellName, Cell, Cell)]) -> NearIds
    requires reach { All (IsInReach world.now) (cells_among changes.now) }
    requires few { length changes.now ≤ most_pairs }
    ensures { result.items ≡ ids_asked world.now (cells_among changes.now) }
{
    let nodes = nodes_near(world, changes);
    ids_round(world, nodes.as_slice())
}

/// The amoebots on and round these nodes, each once.
fn ids_round(world: &World, nodes: &[Node]) -> NearIds
    requires near { All IsNear nodes.now }
    requires few { length nodes.now ≤ near_nodes_room }
    ensures { result.items ≡ fold (with_new nat_eq) [] (ids_round world.now nodes.now) }
{
    let mut ids = ArrayVec::new();
    for node in nodes {
        push_round(&mut ids, world, *node);
    }
    ids
}

/// The nodes of these cells, each once.
fn nodes_near(world: &World, changes: &[(CellName, Cell, Cell)]) -> NearNodes
    requires reach { All (IsInReach world.now) (cells_among changes.now) }
    requires few { length changes.now ≤ most_pairs }
    ensures value { result.items ≡ nodes_asked world.now (cells_among changes.now) }
    ensures few { array_vec_len result ≤ near_nodes_room }
    ensures near { All IsNear result.items }
{
    let mut nodes = ArrayVec::new();
    for (name, _, _) in changes {
        push_nodes(&mut nodes, world, name);
    }
    nodes
}

/// Adds the nodes of a cell that are new.
fn push_nodes(nodes: &mut NearNodes, world: &World, name: &CellName)
    requires reach { IsInReach world.now name.now }
    requires room { array_vec_len nodes.old + 2 ≤ near_nodes_room }
    requires near { All IsNear nodes.old.items }
    ensures value { nodes.new.items
        ≡ fold (with_new node_eq) nodes.old.items (nodes_of_cell world.now name.now) }
    ensures few { array_vec_len nodes.new ≤ array_vec_len nodes.old + 2 }
    ensures near { All IsNear nodes.new.items }
{
    match name {
        CellName::Spot(node) => push_new_node(nodes, *node),
        CellName::Body(id) => {
            let bot = world.bot(*id);
            push_new_node(nodes, bot.head);
            push_new_node(nodes, bot.tail);
        }
    }
}

fn push_new_node(nodes: &mut NearNodes, node: Node)
    requires near { IsNear node }
    requires room { array_vec_len nodes.old < near_nodes_room }
    requires all_near { All IsNear nodes.old.items }
    ensures value { nodes.new.items ≡ with_new node_eq nodes.old.items node }
    ensures few { array_vec_len nodes.new ≤ array_vec_len nodes.old + 1 }
    ensures near { All IsNear nodes.new.items }
{
    if !nodes.as_slice().contains(&node) {
        nodes.push(node);
    }
}

/// Adds the amoebots on and round a node.
fn push_round(ids: &mut NearIds, world: &World, node: Node)
    requires near { IsNear node }
    requires room { array_vec_len ids.old + 7 ≤ near_room }
    ensures value { ids.new.items ≡ fold (with_new nat_eq) ids.old.items (ids_round world.now (node ∷ [])) }
    ensures few { array_vec_len ids.new ≤ array_vec_len ids.old + 7 }
{
    push_occupant(ids, world, node);
    for neighbour in node.ring().iter() {
        push_occupant(ids, world, *neighbour);
    }
}

/// Adds the occupant of a node, if it has one that is new.
fn push_occupant(ids: &mut NearIds, world: &World, node: Node)
    requires room { array_vec_len ids.old < near_room }
    ensures value { ids.new.items ≡ fold (with_new nat_eq) ids.old.items (ids_on world.now (node ∷ [])) }
    ensures few { array_vec_len ids.new ≤ array_vec_len ids.old + 1 }
{
    if let Some(id) = world.occupant(node) {
        push_new_id(ids, id);
    }
}

fn push_new_id(ids: &mut NearIds, id: u16)
    requires room { array_vec_len ids.old < near_room }
    ensures value { ids.new.items ≡ with_new nat_eq ids.old.items id }
    ensures few { array_vec_len ids.new ≤ array_vec_len ids.old + 1 }
{
    if !ids.as_slice().contains(&id) {
        ids.push(id);
    }
}
