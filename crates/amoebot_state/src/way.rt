ghost use Rattle.std.specs.Prelude.{◌≡◌, ◌<◌, ◌≤◌, ◌+◌, [], length, take, IsTrue, true, false, if◌then◌else◌};
ghost use Rattle.std.specs.List.{fold, position};
ghost use Rattle.amoebot_state.specs.declared.bot.End.TheVariants.{Head, Tail};
ghost use Rattle.amoebot_state.specs.Ports.{all_ports, behind, is_contracted, own_nodes, port};
ghost use Rattle.amoebot_state.specs.{Refusals.{IsBotInRange}, Storage.{with_new, with_port}};
ghost use Rattle.amoebot_state.specs.{Ways.{node_place, way_among, ways_of}, Zones.{zone_nodes}};
ghost use Rattle.arrayvec.specs.ArrayVec.{array_vec_len};
ghost use Rattle.tri_lattice.specs.{Extent.{is_in}, Lattice.{node_eq}};

use crate::bot::Bot;
use arrayvec::ArrayVec;
use tri_lattice::{Area, Node};

/// The most nodes of a zone.
const MOST_NODES: usize = 10;

/// The nodes of the zone of an amoebot that stands in the area.
pub(crate) type FewNodes = ArrayVec<Node, MOST_NODES>;

/// Where a pair of an end and a direction of an amoebot leads.
#[derive(Clone, Copy, Debug, Default, Drop)]
pub(crate) enum Way {
    /// The pair is no port of the amoebot.
    #[default]
    NoPort,
    /// Out of the area.
    Outside,
    /// To the node with this place among the nodes of the zone.
    To(u8),
}

/// Where the twelve pairs lead, in port order.
pub(crate) type Ways = [Way; 12];

/// Where the pairs of an amoebot lead.
pub(crate) fn ways_of(area: &Area, bot: &Bot) -> Ways
    requires in_range { IsBotInRange bot.now }
    requires few { length (zone_nodes area.now bot.now) ≤ 10 }
    ensures { result ≡ ways_of area.now bot.now }
{
    let mut nodes = ArrayVec::new();
    push_nodes(&mut nodes, area, bot)
}

/// Adds the nodes of the amoebot's zone, and tells where its pairs lead.
pub(crate) fn push_nodes(nodes: &mut FewNodes, area: &Area, bot: &Bot) -> Ways
    requires in_range { IsBotInRange bot.now }
    requires none { nodes.old.items ≡ [] }
    requires few { length (zone_nodes area.now bot.now) ≤ 10 }
    ensures nodes { nodes.new.items ≡ zone_nodes area.now bot.now }
    ensures ways { result ≡ ways_of area.now bot.now }
{
    nodes.push(bot.head);
    if !bot.is_contracted() {
        nodes.push(bot.tail);
    }
    let inner = area.has_ring(bot.head);
    let mut ways = [Way::NoPort; 12];
    for dir in 0..6 {
        ways[dir] = push_head_way(nodes, area, bot, inner, dir as u8);
    }
    for dir in 0..tail_pairs(bot) {
        ways[6 + dir] = push_tail_way(nodes, area, bot, dir as u8);
    }
    ways
}

/// How many of the tail's pairs may be ports: none of a contracted amoebot,
/// which has those of its head.
fn tail_pairs(bot: &Bot) -> usize
    ensures value { result ≡ (if is_contracted bot.now then 0 else 6) }
    ensures most { result ≤ 6 }
{
    if bot.is_contracted() { 0 } else { 6 }
}

/// Adds the node behind a pair of the head, where that is a port and the node lies in the area,
/// and tells where the pair leads.
/// The pairs before it have added theirs.
/// So the node is new: a port of the head leads to no own node, and no other one leads there.
fn push_head_way(nodes: &mut FewNodes, area: &Area, bot: &Bot, inner: bool, dir: u8) -> Way
    requires in_range { IsBotInRange bot.now }
    requires below { dir < 6 }
    requires inner { inner ≡ true → IsTrue (is_in area.now (behind bot.now (port Head dir))) }
    requires before { nodes.old.items
        ≡ fold (with_port area.now bot.now) (own_nodes bot.now) (take dir all_ports) }
    requires room { length (with_port area.now bot.now nodes.old.items (port Head dir)) ≤ 10 }
    ensures nodes { nodes.new.items ≡ with_port area.now bot.now nodes.old.items (port Head dir) }
    ensures way { result ≡ way_among area.now bot.now nodes.new.items (port Head dir) }
{
    let node = bot.head.step(bot.global(dir));
    if node == bot.tail {
        return Way::NoPort;
    }
    if !inner && area.index(node).is_none() {
        return Way::Outside;
    }
    nodes.push(node);
    Way::To((nodes.len() - 1) as u8)
}

/// The same for a pair of an expanded amoebot's tail, whose node may be
/// behind a port of its head too.
fn push_tail_way(nodes: &mut FewNodes, area: &Area, bot: &Bot, dir: u8) -> Way
    requires in_range { IsBotInRange bot.now }
    requires below { dir < 6 }
    requires expanded { is_contracted bot.now ≡ false }
    requires room { length (with_port area.now bot.now nodes.old.items (port Tail dir)) ≤ 10 }
    ensures nodes { nodes.new.items ≡ with_port area.now bot.now nodes.old.items (port Tail dir) }
    ensures way { result ≡ way_among area.now bot.now nodes.new.items (port Tail dir) }
{
    let node = bot.tail.step(bot.global(dir));
    if node == bot.head {
        return Way::NoPort;
    }
    if area.index(node).is_none() {
        return Way::Outside;
    }
    Way::To(push_place(nodes, node))
}

/// The place of a node, which is added where it is new.
fn push_place(nodes: &mut FewNodes, node: Node) -> u8
    requires { length (with_new node_eq nodes.old.items node) ≤ 10 }
    ensures nodes { nodes.new.items ≡ with_new node_eq nodes.old.items node }
    ensures place { result ≡ node_place nodes.new.items node }
{
    match place_in(nodes.as_slice(), node) {
        Some(place) => place as u8,
        None => {
            nodes.push(node);
            (nodes.len() - 1) as u8
        }
    }
}

fn place_in(nodes: &[Node], node: Node) -> Option<usize>
    ensures { result ≡ position (λ u. node_eq u node) nodes.now }
{
    nodes.iter().position(|other| *other == node)
}
