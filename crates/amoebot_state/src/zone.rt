ghost use Rattle.std.specs.{Prelude.{◌≡◌, ◌<◌, ◌≤◌, ◌+◌, nat_eq}, List.{list_any}};
ghost use Rattle.tri_lattice.specs.Lattice.{node_eq};
ghost use Rattle.amoebot_state.specs.{Limits.{node_room}, Ports.{own_nodes}, Refusals.{IsBotInRange}};
ghost use Rattle.amoebot_state.specs.{Storage.{with_new, with_other, with_port}, Zones.{zone_nodes}};
ghost use Rattle.arrayvec.specs.ArrayVec.{array_vec_len};

use crate::bot::{ALL_PORTS, Bot, Port};
use arrayvec::ArrayVec;
use tri_lattice::{Area, Node};

/// Room for two own nodes and those behind twelve pairs of an end and a direction.
const ROOM: usize = 14;

/// The nodes of a zone.
pub(crate) type Nodes = ArrayVec<Node, ROOM>;

/// The other amoebots on them.
pub(crate) type Ids = ArrayVec<u16, ROOM>;

/// The nodes of an amoebot's zone: its own, and those behind its ports that lie in the area,
/// each once.
pub(crate) fn zone_nodes(area: &Area, bot: &Bot) -> Nodes
    requires { IsBotInRange bot.now }
    ensures value { result.items ≡ zone_nodes area.now bot.now }
    ensures few { array_vec_len result ≤ node_room }
{
    let mut nodes = own_nodes(bot);
    for port in ALL_PORTS.iter() {
        push_port(area, bot, *port, &mut nodes);
    }
    nodes
}

fn own_nodes(bot: &Bot) -> Nodes
    ensures value { result.items ≡ own_nodes bot.now }
    ensures few { array_vec_len result ≤ 2 }
{
    let mut nodes = ArrayVec::new();
    nodes.push(bot.head);
    if !bot.is_contracted() {
        nodes.push(bot.tail);
    }
    nodes
}

/// Adds the node behind a port, where it lies in the area and is new.
fn push_port(area: &Area, bot: &Bot, port: Port, nodes: &mut Nodes)
    requires in_range { IsBotInRange bot.now }
    requires room { array_vec_len nodes.old < node_room }
    ensures value { nodes.new.items ≡ with_port area.now bot.now nodes.old.items port }
    ensures few { array_vec_len nodes.new ≤ array_vec_len nodes.old + 1 }
{
    if bot.is_port(port) {
        let node = bot.behind(port);
        if area.index(node).is_some() {
            push_new_node(nodes, node);
        }
    }
}

fn push_new_node(nodes: &mut Nodes, node: Node)
    requires { array_vec_len nodes.old < node_room }
    ensures value { nodes.new.items ≡ with_new node_eq nodes.old.items node }
    ensures few { array_vec_len nodes.new ≤ array_vec_len nodes.old + 1 }
{
    if !nodes.as_slice().contains(&node) {
        nodes.push(node);
    }
}

/// Adds an occupant, where there is one that is another amoebot than `id` and not there yet.
pub(crate) fn push_other<const ROOM: usize>(
    ids: &mut ArrayVec<u16, ROOM>,
    id: u16,
    occupant: Option<u16>,
)
    requires { array_vec_len ids.old < ROOM }
    ensures value { ids.new.items ≡ with_other id ids.old.items occupant }
    ensures few { array_vec_len ids.new ≤ array_vec_len ids.old + 1 }
{
    if let Some(other) = occupant {
        if other != id {
            push_new_id(ids, other);
        }
    }
}

fn push_new_id<const ROOM: usize>(ids: &mut ArrayVec<u16, ROOM>, id: u16)
    requires { array_vec_len ids.old < ROOM }
    ensures value { ids.new.items ≡ with_new nat_eq ids.old.items id }
    ensures few { array_vec_len ids.new ≤ array_vec_len ids.old + 1 }
{
    if !has_id(ids.as_slice(), id) {
        ids.push(id);
    }
}

fn has_id(ids: &[u16], id: u16) -> bool
    ensures { result ≡ list_any (λ j. nat_eq j id) ids.now }
{
    ids.iter().any(|other| *other == id)
}
