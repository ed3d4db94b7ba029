ghost use Rattle.std.specs.Prelude.{ℕ, ◌≡◌, ◌⊎◌, ◌+◌, ◌++◌, ◌∷◌, ◌<◌, ◌≤◌, [], OnOk, IfOk, IfErr, filter};
ghost use Rattle.std.specs.Prelude.{length, map, IsSome, Decides, is_some, ◌&&◌, ◌||◌, if◌then◌else◌};
ghost use Rattle.std.specs.List.{All, filter_map};
ghost use Rattle.amoebot_state.specs.Limits.{most_bots, most_cells, most_nodes, most_walls};
ghost use Rattle.amoebot_state.specs.Configs.{Config, IsValid, bot_at, frame, is_wall, occupant, frame_of};
ghost use Rattle.amoebot_state.specs.Configs.{walled_frame, with_these, with_bot};
ghost use Rattle.amoebot_state.specs.Zones.{IsShown, shown, shown_cell, shown_with, zone, zone_nodes, others};
ghost use Rattle.amoebot_state.specs.{Known.{walls_read}, Ways.{reading}, Pairs.{nodes_in, plain_patch}};
ghost use Rattle.amoebot_state.specs.Patches.{IsPatched, HasPatched};
ghost use Rattle.amoebot_state.specs.Refusals.{AreWalls, IsBotInRange, IsFaultless, IsFirstFault};
ghost use Rattle.amoebot_state.specs.Refusals.{IsFirstRefusal, bot_fault};
ghost use Rattle.tri_lattice.specs.Extent.{index_of, is_in};
ghost use Rattle.arrayvec.specs.ArrayVec.{array_vec_len};

use crate::bot::Bot;
use crate::cell::{Cell, CellName, Patch};
use crate::found::{Found, ZoneCells};
use crate::frame::Frame;
use crate::grid::{has_values, is_close, put_all, put_new};
use crate::known_zone::KnownZone;
use crate::refusal::{NoMemory, WorldRefusal};
use crate::way::{FewNodes, push_nodes};
use crate::zone::{Ids, push_other};
use arrayvec::ArrayVec;
use std::alloc::Global;
use std::marker::Model;
use tri_lattice::{Area, Node};

/// A world: an area, walls in it, the maxima of the variables, and at most 4,096 amoebots,
/// which are numbered from 0.
/// It is valid: each amoebot stands in the area, on one node or on two adjacent ones,
/// and on no wall.
/// No node belongs to two amoebots, each rotation is below 6, and no value is above its maximum.
///
/// Beside them it keeps the occupant of each node of the area.
#[derive(Drop)]
pub struct World {
    frame: Frame,
    amoebots: Vec<Bot>,
    occupants: Vec<Option<u16>>,
}

impl Model for World {
    ghost use Rattle.amoebot_state.specs.Configs.{Config, with_these, IsWorld};

    ghost Value = { Config };

    ghost view = { λ w. with_these w.frame w.amoebots.items };

    ghost invariant = { λ w. IsWorld (with_these w.frame w.amoebots.items) w.occupants.items };
}

impl World {
    /// A world of these amoebots, at most 4,096, whose ids are their places in the list,
    /// and without walls.
    /// Otherwise the first fault of the first amoebot that has one: OutOfBox, NotAdjacent,
    /// Overlap with an earlier one, BadValue, in this order.
    /// NoMemory may come in place of any answer.
    pub fn new(
        alloc: Global,
        area: Area,
        maxes: [u8; 8],
        bots: &[Bot],
    ) -> Result<World, WorldRefusal>
        requires few { length bots.now ≤ most_bots }
        requires in_range { All IsBotInRange bots.now }
        ensures value { IfOk result (λ w. w ≡ with_these (frame_of area maxes) bots.now) }
        ensures faultless { OnOk result (IsFaultless (frame_of area maxes) bots.now (length bots.now)) }
        ensures fault { IfErr result (λ e.
            (e ≡ WorldRefusal.NoMemory) ⊎ IsFirstFault (frame_of area maxes) bots.now e) }
    {
        World::walled(alloc, area, &[], maxes, bots)
    }

    /// A world of these walls and these amoebots, at most 16,384 and 4,096,
    /// where the ids of the amoebots are their places in the list.
    /// Otherwise BadWall for the first wall that is outside the area or equals an earlier one;
    /// else the first fault of the first amoebot that has one: OutOfBox, NotAdjacent, OnWall,
    /// Overlap with an earlier one, BadValue, in this order.
    /// NoMemory may come in place of any answer.
    pub fn walled(
        alloc: Global,
        area: Area,
        walls: &[Node],
        maxes: [u8; 8],
        bots: &[Bot],
    ) -> Result<World, WorldRefusal>
        requires few_walls { length walls.now ≤ most_walls }
        requires few { length bots.now ≤ most_bots }
        requires in_range { All IsBotInRange bots.now }
        ensures value { IfOk result (λ w. w ≡ with_these (walled_frame area walls.now maxes) bots.now) }
        ensures walls { OnOk result (AreWalls area walls.now (length walls.now)) }
        ensures faultless { OnOk result (
            IsFaultless (walled_frame area walls.now maxes) bots.now (length bots.now)) }
        ensures fault { IfErr result (λ e.
            (e ≡ WorldRefusal.NoMemory) ⊎ IsFirstRefusal area walls.now maxes bots.now e) }
    {
        let frame = Frame::make(alloc, area, walls, maxes)?;
        World::framed(alloc, frame, bots)
    }

    /// A world of these amoebots in a frame.
    fn framed(alloc: Global, frame: Frame, bots: &[Bot]) -> Result<World, WorldRefusal>
        requires few { length bots.now ≤ most_bots }
        requires in_range { All IsBotInRange bots.now }
        ensures value { IfOk result (λ w. w ≡ with_these frame bots.now) }
        ensures faultless { OnOk result (IsFaultless frame bots.now (length bots.now)) }
        ensures fault { IfErr result (λ e. (e ≡ WorldRefusal.NoMemory) ⊎ IsFirstFault frame bots.now e) }
    {
        let mut world = World::empty(alloc, frame, bots.len())?;
        for bot in bots {
            world.add(bot)?;
        }
        Ok(world)
    }

    fn empty(alloc: Global, frame: Frame, room: usize) -> Result<World, WorldRefusal>
        ensures value { IfOk result (λ w. w ≡ with_these frame []) }
        ensures err { IfErr result (λ e. e ≡ WorldRefusal.NoMemory) }
    {
        frame.keeps();
        let mut amoebots = Vec::new(alloc);
        amoebots.reserve_exact(room)?;
        let mut occupants = Vec::new(alloc);
        occupants.resize(frame.area().size() as usize, None)?;
        Ok(World {
            frame,
            amoebots,
            occupants,
        })
    }

    /// The first fault of an amoebot that is to be the next.
    fn fault(&self, bot: &Bot) -> Option<WorldRefusal>
        requires few { length self.now.bots < most_bots }
        requires in_range { IsBotInRange bot.now }
        ensures { result ≡ bot_fault self.now bot.now }
    {
        let id = self.amoebots.len() as u16;
        if !self.is_inside(bot) {
            return Some(WorldRefusal::OutOfBox(id));
        }
        if !is_close(bot.head, bot.tail) {
            return Some(WorldRefusal::NotAdjacent(id));
        }
        if self.is_on_wall(bot) {
            return Some(WorldRefusal::OnWall(id));
        }
        if self.is_on_other(bot) {
            return Some(WorldRefusal::Overlap(id));
        }
        if !has_values(self.frame.maxes(), &bot.mem) {
            return Some(WorldRefusal::BadValue(id));
        }
        None
    }

    /// Whether both nodes of an amoebot lie in the area.
    fn is_inside(&self, bot: &Bot) -> bool
        ensures { result ≡ (is_in self.now.area bot.now.head && is_in self.now.area bot.now.tail) }
    {
        let area = self.frame.area();
        area.index(bot.head).is_some() && area.index(bot.tail).is_some()
    }

    /// Whether a node of an amoebot is a wall.
    fn is_on_wall(&self, bot: &Bot) -> bool
        ensures { result ≡ (is_wall self.now bot.now.head || is_wall self.now bot.now.tail) }
    {
        self.is_wall(bot.head) || self.is_wall(bot.tail)
    }

    /// Whether a node of an amoebot has an occupant.
    fn is_on_other(&self, bot: &Bot) -> bool
        ensures { result ≡ (is_some (occupant self.now bot.now.head) || is_some (
            occupant self.now bot.now.tail)) }
    {
        self.occupant(bot.head).is_some() || self.occupant(bot.tail).is_some()
    }

    fn add(&mut self, bot: &Bot) -> Result<(), WorldRefusal>
        requires few { length self.old.bots < most_bots }
        requires in_range { IsBotInRange bot.now }
        ensures ok { OnOk result ((bot_fault self.old bot.now ≡ None)
            × (self.new ≡ with_bot self.old bot.now)) }
        ensures err { IfErr result (λ e.
            (e ≡ WorldRefusal.NoMemory) ⊎ (bot_fault self.old bot.now ≡ Some e)) }
    {
        match self.fault(bot) {
            Some(fault) => return Err(fault),
            None => {}
        }
        let id = self.amoebots.len() as u16;
        put_new(
            self.frame.area(),
            &mut self.amoebots,
            &mut self.occupants,
            id,
            bot,
        )?;
        Ok(())
    }

    /// What a world keeps: it is valid, has at most 4,096 amoebots,
    /// and each id below their number is an amoebot's.
    pub fn keeps(&self)
        ensures valid { IsValid self.now }
        ensures few { length self.now.bots ≤ most_bots }
        ensures no_gaps { (id : ℕ) → id < length self.now.bots → IsSome (bot_at self.now id) }
    {
        let _frame = &self.frame;
    }

    /// The area.
    pub fn area(&self) -> Area
        ensures { result ≡ self.now.area }
    {
        *self.frame.area()
    }

    /// The greatest value of each variable.
    pub fn maxes(&self) -> [u8; 8]
        ensures { result ≡ self.now.maxes }
    {
        *self.frame.maxes()
    }

    /// How many amoebots there are, at most 4,096.
    pub fn bots(&self) -> u16
        ensures value { result ≡ length self.now.bots }
        ensures few { result ≤ most_bots }
    {
        self.amoebots.len() as u16
    }

    /// The amoebot with an id.
    pub fn bot(&self, id: u16) -> &Bot
        requires { id < length self.now.bots }
        ensures value { Some result.now ≡ bot_at self.now id }
        ensures in_range { IsBotInRange result.now }
    {
        &self.amoebots[usize::from(id)]
    }

    /// The id of a node's occupant; None for an empty node and for one outside the area.
    pub fn occupant(&self, node: Node) -> Option<u16>
        ensures { result ≡ occupant self.now node }
    {
        match self.frame.area().index(node) {
            Some(number) => self.occupants[number as usize],
            None => None,
        }
    }

    /// Whether a node is a wall; a node outside the area is none.
    pub fn is_wall(&self, node: Node) -> bool
        ensures { result ≡ is_wall self.now node }
    {
        self.frame.is_wall(node)
    }

    /// Whether the node with this number is a wall.
    pub fn is_wall_number(&self, number: u32) -> bool
        ensures { (v : Node) → index_of self.now.area v ≡ Some number → result ≡ is_wall self.now v }
    {
        self.frame.is_wall_number(number)
    }

    /// Whether the worlds are equal: in area, walls, maxima and amoebots.
    pub fn same(&self, other: &World) -> bool
        ensures { Decides result (self.now ≡ other.now) }
    {
        self.frame.same(&other.frame)
            && same_bots(self.amoebots.as_slice(), other.amoebots.as_slice())
    }

    /// Whether area and walls are those of the other world.
    pub fn has_area_and_walls_of(&self, other: &World) -> bool
        ensures { Decides result ((self.now.area ≡ other.now.area) × (self.now.walls ≡ other.now.walls)) }
    {
        self.frame.has_area_and_walls_of(&other.frame)
    }

    /// The same world once more.
    pub fn copy(&self, alloc: Global) -> Result<World, NoMemory>
        ensures { IfOk result (λ w. w ≡ self.now) }
    {
        let amoebots = Vec::from_slice(alloc, self.amoebots.as_slice())?;
        let occupants = Vec::from_slice(alloc, self.occupants.as_slice())?;
        Ok(World {
            frame: self.frame.copy(alloc)?,
            amoebots,
            occupants,
        })
    }

    /// What an amoebot is shown.
    pub fn found(&self, bot: u16) -> Found
        requires { bot < length self.now.bots }
        ensures value { result ≡ shown self.now bot }
        ensures valid { IsValid self.now }
        ensures there { IsSome (bot_at self.now bot) }
    {
        let _frame = &self.frame;
        let own = self.own(bot);
        let area = self.area();
        let maxes = self.maxes();
        let mut nodes = ArrayVec::new();
        let ways = push_nodes(&mut nodes, &area, &own);
        let mut cells = ArrayVec::new();
        let mut walls: FewNodes = ArrayVec::new();
        self.put_zone(&mut cells, &mut walls, bot, &own, nodes.as_slice());
        Found::of_parts(area, maxes, bot, own, ways, cells, walls)
    }

    /// The same in the place of what was found before, of this world or of another one.
    pub fn show(&self, bot: u16, found: &mut Found)
        requires { bot < length self.now.bots }
        ensures { found.new ≡ shown self.now bot }
    {
        found.show(self, bot);
    }

    /// What an amoebot is shown, where these are the cells that it is shown.
    pub fn found_with(&self, bot: u16, cells: &[(CellName, Cell)]) -> Found
        requires { IsShown (shown_with self.now bot cells.now) }
        ensures { result ≡ shown_with self.now bot cells.now }
    {
        let _frame = &self.frame;
        let walls = self.walls_in(cells);
        Found::make(self.area(), self.maxes(), bot, cells, walls.as_slice())
    }

    /// The same in the place of what was found before, of a zone of which all is known.
    pub fn renew_found(
        &self,
        found: &mut Found,
        bot: u16,
        zone: &KnownZone,
        cells: &[(CellName, Cell)],
    )
        requires shown { IsShown (shown_with self.now bot cells.now) }
        requires known { zone.now ≡ reading self.now.area bot cells.now }
        ensures { found.new ≡ shown_with self.now bot cells.now }
    {
        let _frame = &self.frame;
        let walls = self.walls_in(cells);
        found.renew(
            self.area(),
            self.maxes(),
            bot,
            zone,
            cells,
            walls.as_slice(),
        );
    }

    /// The walls on the nodes among the cells.
    fn walls_in(&self, cells: &[(CellName, Cell)]) -> FewNodes
        requires { length (nodes_in cells.now) ≤ most_nodes }
        ensures { result.items ≡ walls_read self.now cells.now }
    {
        let mut walls = ArrayVec::new();
        for (name, _) in cells {
            self.push_wall(&mut walls, name);
        }
        walls
    }

    fn push_wall(&self, walls: &mut FewNodes, name: &CellName)
        requires { length (
            walls.old.items ++ walls_read self.now ((name.now, Cell.Spot None) ∷ [])) ≤ most_nodes }
        ensures { walls.new.items ≡ walls.old.items ++ walls_read self.now ((name.now, Cell.Spot None) ∷ []) }
    {
        if let CellName::Spot(node) = name {
            if self.is_wall(*node) {
                walls.push(*node);
            }
        }
    }

    /// Adds the cells of an amoebot's zone, which has these nodes, with what they hold,
    /// and the walls among them.
    pub(crate) fn put_zone(
        &self,
        cells: &mut ZoneCells,
        walls: &mut FewNodes,
        bot: u16,
        own: &Bot,
        nodes: &[Node],
    )
        requires there { bot_at self.now bot ≡ Some own.now }
        requires nodes { nodes.now ≡ zone_nodes self.now.area own.now }
        requires no_cells { cells.old.items ≡ [] }
        requires no_walls { walls.old.items ≡ [] }
        ensures cells { cells.new.items ≡ filter_map (shown_cell self.now) (zone self.now bot) }
        ensures walls { walls.new.items ≡ walls_read self.now cells.new.items }
    {
        let _frame = &self.frame;
        cells.push((CellName::Body(bot), Cell::Body(*own)));
        let ids = self.put_nodes(cells, walls, bot, nodes);
        self.put_bodies(cells, ids.as_slice());
    }

    /// Adds the cells of these nodes and the walls among them,
    /// and tells the other amoebots on them.
    fn put_nodes(
        &self,
        cells: &mut ZoneCells,
        walls: &mut FewNodes,
        bot: u16,
        nodes: &[Node],
    ) -> Ids
        requires room { array_vec_len cells.old + length nodes.now ≤ most_cells }
        requires few { length nodes.now ≤ most_nodes }
        requires no_walls { walls.old.items ≡ [] }
        ensures cells { cells.new.items
            ≡ cells.old.items ++ map (λ v. (CellName.Spot v, Cell.Spot (occupant self.now v))) nodes.now }
        ensures walls { walls.new.items ≡ filter (is_wall self.now) nodes.now }
        ensures others { result.items ≡ others (occupant self.now) bot nodes.now }
    {
        let mut ids = ArrayVec::new();
        for node in nodes {
            let (occupant, wall) = self.on_node(*node);
            cells.push((CellName::Spot(*node), Cell::Spot(occupant)));
            push_other(&mut ids, bot, occupant);
            push_if(walls, *node, wall);
        }
        ids
    }

    /// The occupant of a node, and whether it is a wall.
    fn on_node(&self, node: Node) -> (Option<u16>, bool)
        ensures occupant { result.0 ≡ occupant self.now node }
        ensures wall { result.1 ≡ is_wall self.now node }
    {
        match self.frame.area().index(node) {
            Some(number) => (self.occupants[number as usize], self.is_wall_number(number)),
            None => (None, false),
        }
    }

    fn own(&self, id: u16) -> Bot
        requires { id < length self.now.bots }
        ensures value { bot_at self.now id ≡ Some result }
        ensures in_range { IsBotInRange result }
    {
        let _frame = &self.frame;
        *self.bot(id)
    }

    fn put_bodies(&self, cells: &mut ZoneCells, ids: &[u16])
        requires room { array_vec_len cells.old + length ids.now ≤ most_cells }
        requires there { All (λ i. i < length self.now.bots) ids.now }
        ensures { cells.new.items
            ≡ cells.old.items ++ filter_map (λ i. shown_cell self.now (CellName.Body i)) ids.now }
    {
        for id in ids {
            cells.push((CellName::Body(*id), Cell::Body(*self.bot(*id))));
        }
    }

    /// Gives the cells of the patch their new values, which have to lead
    /// to a valid world with the same ids.
    pub fn apply(&mut self, patch: &Patch)
        requires { HasPatched self.old (plain_patch patch.now) }
        ensures { IsPatched self.old (plain_patch patch.now) self.new }
    {
        put_all(
            self.frame.area(),
            &mut self.amoebots,
            &mut self.occupants,
            patch.triples(),
        );
    }
}

fn same_bots(bots: &[Bot], others: &[Bot]) -> bool
    ensures { Decides result (bots.now ≡ others.now) }
{
    bots == others
}

/// Adds a node where it is a wall.
fn push_if(walls: &mut FewNodes, node: Node, wall: bool)
    requires { array_vec_len walls.old < most_nodes }
    ensures items { walls.new.items ≡ walls.old.items ++ (if wall then node ∷ [] else []) }
    ensures few { array_vec_len walls.new ≤ array_vec_len walls.old + 1 }
{
    if wall {
        walls.push(node);
    }
}
