ghost use Rattle.std.specs.Prelude.{◌≡◌, ℕ, Option, ◌+◌, ◌≤◌, ◌<◌, length, slice_get, true, IfSome, IsSome};
ghost use Rattle.std.specs.{Prelude.{IsTrue, Some}, Option.{option_copied}};
ghost use Rattle.amoebot_state.specs.Limits.{most_cells, most_nodes};
ghost use Rattle.amoebot_state.specs.Configs.{IsValid, bot_at, bot_of, is_wall, occupant};
ghost use Rattle.amoebot_state.specs.{Ports.{is_beside}, Around.{behind_pair, on_node}};
ghost use Rattle.amoebot_state.specs.{Refusals.{IsBotInRange}, declared.bot.Bot.{Bot}};
ghost use Rattle.amoebot_state.specs.{Ways.{reading, ways_of}, Walls.{has_node, node_numbers}};
ghost use Rattle.amoebot_state.specs.Zones.{IsShown, shown, shown_alone, shown_by, zone_nodes};
ghost use Rattle.amoebot_state.specs.Pairs.{body_at, body_in, spot_at, spot_in};
ghost use Rattle.tri_lattice.specs.declared.node.Node.{Node};

use crate::bot::{Bot, Port};
use crate::cell::{Cell, CellName, MOST_CELLS};
use crate::known_zone::KnownZone;
use crate::way::{FewNodes, Way, Ways, push_nodes, ways_of};
use crate::world::World;
use arrayvec::ArrayVec;
use std::marker::Model;
use tri_lattice::{Area, Node};

/// The cells of a zone with what they hold.
pub(crate) type ZoneCells = ArrayVec<(CellName, Cell), MOST_CELLS>;

/// What is behind a pair of an end and a direction.
#[derive(Clone, Copy, Debug, Default, Drop, PartialEq, Eq)]
pub enum Behind {
    /// The pair is no port of the amoebot.
    #[default]
    NoPort,
    /// A node outside of the area.
    Edge,
    /// A node that is a wall.
    Wall,
    /// A node without an occupant.
    Empty,
    /// The occupant with this id.
    Bot(u16),
}

/// What an amoebot is shown of a world: its closed neighbourhood.
/// That is the area, the maxima of the variables, the cells of its zone with their values,
/// and the walls among its nodes.
#[derive(Drop)]
pub struct Found {
    area: Area,
    maxes: [u8; 8],
    bot: u16,
    own: Bot,
    ways: Ways,
    cells: ZoneCells,
    walls: FewNodes,
}

impl Model for Found {
    ghost use Rattle.amoebot_state.specs.{Walls.{node_numbers}, Ways.{IsFound}, Zones.{Shown, shown_by}};

    ghost Value = { Shown };

    ghost view = { λ f. shown_by f.area f.maxes f.bot (node_numbers f.area f.walls.items) f.cells.items };

    ghost invariant = { λ f. IsFound
        (shown_by f.area f.maxes f.bot (node_numbers f.area f.walls.items) f.cells.items) f.own f.ways };
}

impl Found {
    /// The closed neighbourhood that has these cells and these walls.
    /// The cells are the whole zone of an amoebot of some valid world, in zone order,
    /// with what they hold there, and the walls are those of that world on the nodes among them.
    /// It takes no memory.
    pub fn make(
        area: Area,
        maxes: [u8; 8],
        bot: u16,
        cells: &[(CellName, Cell)],
        walls: &[Node],
    ) -> Found
        requires shown { IsShown (shown_by area maxes bot (node_numbers area walls.now) cells.now) }
        requires few { length walls.now ≤ most_nodes }
        ensures { result ≡ shown_by area maxes bot (node_numbers area walls.now) cells.now }
    {
        let own = own_in(cells, bot);
        Found::with_ways(area, maxes, bot, cells, walls, ways_of(&area, &own))
    }

    /// The same, where it is known where the pairs of the amoebot lead.
    pub(crate) fn with_ways(
        area: Area,
        maxes: [u8; 8],
        bot: u16,
        cells: &[(CellName, Cell)],
        walls: &[Node],
        ways: Ways,
    ) -> Found
        requires shown { IsShown (shown_by area maxes bot (node_numbers area walls.now) cells.now) }
        requires few { length walls.now ≤ most_nodes }
        requires known { (own : Bot) → Some own ≡ body_in cells.now bot → ways ≡ ways_of area own }
        ensures { result ≡ shown_by area maxes bot (node_numbers area walls.now) cells.now }
    {
        Found {
            area,
            maxes,
            bot,
            own: own_in(cells, bot),
            ways,
            cells: copied(cells),
            walls: copied_nodes(walls),
        }
    }

    /// The closed neighbourhood of this amoebot, whose pairs lead so, with these cells and walls.
    pub(crate) fn of_parts(
        area: Area,
        maxes: [u8; 8],
        bot: u16,
        own: Bot,
        ways: Ways,
        cells: ZoneCells,
        walls: FewNodes,
    ) -> Found
        requires shown { IsShown (shown_by area maxes bot (node_numbers area walls.items) cells.items) }
        requires own { Some own ≡ body_in cells.items bot }
        requires known { ways ≡ ways_of area own }
        ensures { result ≡ shown_by area maxes bot (node_numbers area walls.items) cells.items }
    {
        Found {
            area,
            maxes,
            bot,
            own,
            ways,
            cells,
            walls,
        }
    }

    /// The same in the place of what was found before, of a zone of which all is known.
    pub fn renew(
        &mut self,
        area: Area,
        maxes: [u8; 8],
        bot: u16,
        zone: &KnownZone,
        cells: &[(CellName, Cell)],
        walls: &[Node],
    )
        requires shown { IsShown (shown_by area maxes bot (node_numbers area walls.now) cells.now) }
        requires few { length walls.now ≤ most_nodes }
        requires known { zone.now ≡ reading area bot cells.now }
        ensures { self.new ≡ shown_by area maxes bot (node_numbers area walls.now) cells.now }
    {
        self.area = area;
        self.maxes = maxes;
        self.bot = bot;
        self.own = own_in(cells, bot);
        self.ways = zone.ways();
        copy_all(&mut self.cells, cells);
        copy_nodes(&mut self.walls, walls);
    }

    /// What a world shows to this amoebot, in the place of what was found before.
    pub(crate) fn show(&mut self, world: &World, bot: u16)
        requires { bot < length world.now.bots }
        ensures { self.new ≡ shown world.now bot }
    {
        world.keeps();
        let own = *world.bot(bot);
        let area = world.area();
        let mut nodes = ArrayVec::new();
        self.ways = push_nodes(&mut nodes, &area, &own);
        self.area = area;
        self.maxes = world.maxes();
        self.bot = bot;
        self.own = own;
        self.cells.clear();
        self.walls.clear();
        world.put_zone(
            &mut self.cells,
            &mut self.walls,
            bot,
            &own,
            nodes.as_slice(),
        );
    }

    /// The id of the amoebot that is shown this.
    pub fn bot(&self) -> u16
        ensures { result ≡ self.now.bot }
    {
        self.bot
    }

    /// The area of the world.
    pub fn area(&self) -> Area
        ensures { result ≡ self.now.area }
    {
        self.area
    }

    /// The greatest value of each variable.
    pub fn maxes(&self) -> [u8; 8]
        ensures { result ≡ self.now.maxes }
    {
        self.maxes
    }

    /// The amoebot that is shown this.
    pub fn own(&self) -> &Bot
        ensures value { Some result.now ≡ bot_at (shown_alone self.now) self.now.bot }
        ensures in_range { IsBotInRange result.now }
        ensures shown { IsShown self.now }
        ensures valid { IsValid (shown_alone self.now) }
    {
        &self.own
    }

    /// What is behind a pair of an end and a direction.
    pub fn behind(&self, port: Port) -> Behind
        ensures { result ≡ behind_pair (shown_alone self.now) self.now.bot port }
    {
        if port.dir > 5 {
            return Behind::NoPort;
        }
        match self.ways[port.place()] {
            Way::NoPort => Behind::NoPort,
            Way::Outside => Behind::Edge,
            Way::To(node) => self.on_place(usize::from(node)),
        }
    }

    /// What is on the node with this place among the nodes of the zone.
    fn on_place(&self, place: usize) -> Behind
        requires { 1 + place < length self.now.cells }
        ensures { (v : Node) (o : Option ℕ)
            → slice_get self.now.cells (1 + place) ≡ Some (CellName.Spot v, Cell.Spot o)
            → result ≡ on_node true (is_wall (shown_alone self.now) v) o }
    {
        let (name, cell) = &self.cells.as_slice()[1 + place];
        match cell {
            Cell::Spot(occupant) => self.on_spot(name, *occupant),
            Cell::Body(_) => self.on_empty(name),
        }
    }

    /// What is on a node with this occupant, or without one.
    fn on_spot(&self, name: &CellName, occupant: Option<u16>) -> Behind
        ensures { (v : Node) → name.now ≡ CellName.Spot v
            → result ≡ on_node true (is_wall (shown_alone self.now) v) occupant }
    {
        match occupant {
            Some(id) => Behind::Bot(id),
            None => self.on_empty(name),
        }
    }

    /// What is on a node without an occupant.
    fn on_empty(&self, name: &CellName) -> Behind
        ensures { (v : Node) → name.now ≡ CellName.Spot v
            → result ≡ on_node true (is_wall (shown_alone self.now) v) None }
    {
        match name {
            CellName::Spot(node) => {
                if self.is_wall(*node) {
                    Behind::Wall
                } else {
                    Behind::Empty
                }
            }
            CellName::Body(_) => Behind::Empty,
        }
    }

    /// Whether a node of the zone is a wall. A node outside the zone is none.
    pub fn is_wall(&self, node: Node) -> bool
        ensures { result ≡ is_wall (shown_alone self.now) node }
    {
        has_node(self.walls.as_slice(), node) && self.area.index(node).is_some()
    }

    /// The walls of the zone.
    pub fn walls(&self) -> &[Node]
        ensures value { node_numbers self.now.area result.now ≡ self.now.walls }
        ensures few { length result.now ≤ most_nodes }
    {
        self.walls.as_slice()
    }

    /// The cells of the zone with what they hold, in zone order.
    pub fn cells(&self) -> &[(CellName, Cell)]
        ensures value { result.now ≡ self.now.cells }
        ensures shown { IsShown self.now }
    {
        self.cells.as_slice()
    }

    /// The id of a node's occupant; None for an empty node and for one outside the area.
    /// The node is an own one or adjacent to one.
    pub fn occupant(&self, node: Node) -> Option<u16>
        requires { IsTrue (is_beside (bot_of (shown_alone self.now) self.now.bot) node) }
        ensures { result ≡ occupant (shown_alone self.now) node }
    {
        spot_in(self.cells.as_slice(), node).unwrap_or(None)
    }

    /// The amoebot with an id; None exactly where its body is not in the zone.
    pub fn body(&self, id: u16) -> Option<&Bot>
        ensures value { option_copied result ≡ bot_at (shown_alone self.now) id }
        ensures in_range { IfSome result (λ b. IsBotInRange b.now) }
    {
        body_in(self.cells.as_slice(), id)
    }
}

/// The own amoebot, which the cells hold.
fn own_in(cells: &[(CellName, Cell)], bot: u16) -> Bot
    requires { IsSome (body_in cells.now bot) }
    ensures { Some result ≡ body_in cells.now bot }
{
    match body_in(cells, bot) {
        Some(own) => *own,
        None => unreachable!(),
    }
}

fn copied(cells: &[(CellName, Cell)]) -> ZoneCells
    requires { length cells.now ≤ most_cells }
    ensures { result.items ≡ cells.now }
{
    let mut copy = ArrayVec::new();
    copy_all(&mut copy, cells);
    copy
}

/// Puts these cells in the place of what the list has.
fn copy_all(copy: &mut ZoneCells, cells: &[(CellName, Cell)])
    requires { length cells.now ≤ most_cells }
    ensures { copy.new.items ≡ cells.now }
{
    copy.clear();
    match copy.try_extend_from_slice(cells) {
        Ok(()) => {}
        Err(_) => unreachable!(),
    }
}

fn copied_nodes(nodes: &[Node]) -> FewNodes
    requires { length nodes.now ≤ most_nodes }
    ensures { result.items ≡ nodes.now }
{
    let mut copy = ArrayVec::new();
    copy_nodes(&mut copy, nodes);
    copy
}

/// Puts these nodes in the place of what the list has.
fn copy_nodes(copy: &mut FewNodes, nodes: &[Node])
    requires { length nodes.now ≤ most_nodes }
    ensures { copy.new.items ≡ nodes.now }
{
    copy.clear();
    match copy.try_extend_from_slice(nodes) {
        Ok(()) => {}
        Err(_) => unreachable!(),
    }
}

/// Whether one of the nodes is this one.
fn has_node(nodes: &[Node], node: Node) -> bool
    ensures { result ≡ has_node nodes.now node }
{
    nodes.iter().any(|other| *other == node)
}

/// The first amoebot that the cells hold for this id.
pub(crate) fn body_in(cells: &[(CellName, Cell)], id: u16) -> Option<&Bot>
    ensures { option_copied result ≡ body_in cells.now id }
{
    for (name, cell) in cells {
        match body_at(name, cell, id) {
            Some(bot) => return Some(bot),
            None => {}
        }
    }
    None
}

/// The amoebot of a cell, where that is the body of this id.
fn body_at<'a>(name: &CellName, cell: &'a Cell, id: u16) -> Option<&'a Bot>
    ensures { option_copied result ≡ body_at name.now cell.now id }
{
    match name {
        CellName::Body(other) => match cell {
            Cell::Body(bot) => { if *other == id { Some(bot) } else { None } }
            Cell::Spot(_) => None,
        },
        CellName::Spot(_) => None,
    }
}

/// The first occupant that the cells have for this node, if they have one.
pub(crate) fn spot_in(cells: &[(CellName, Cell)], node: Node) -> Option<Option<u16>>
    ensures { result ≡ spot_in cells.now node }
{
    for (name, cell) in cells {
        match spot_at(name, cell, node) {
            Some(occupant) => return Some(occupant),
            None => {}
        }
    }
    None
}

/// The occupant of a cell, where that is this node.
fn spot_at(name: &CellName, cell: &Cell, node: Node) -> Option<Option<u16>>
    ensures { result ≡ spot_at name.now cell.now node }
{
    match name {
        CellName::Spot(other) => match cell {
            Cell::Spot(occupant) => {
                if *other == node {
                    Some(*occupant)
                } else {
                    None
                }
            }
            Cell::Body(_) => None,
        },
        CellName::Body(_) => None,
    }
}
