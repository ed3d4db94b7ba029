ghost use Rattle.std.specs.Prelude.{◌≡◌, ◌<◌, ◌≤◌, ℕ, [], length, is_some, IsSome, IsTrue, IfOk, Some, None};
ghost use Rattle.std.specs.Prelude.{true, unsigned_abs};
ghost use Rattle.amoebot_state.specs.Limits.{most_nodes, most_vars};
ghost use Rattle.amoebot_state.specs.{Configs.{bot_at, is_wall, occupant, set_bot}, Walls.{has_node}};
ghost use Rattle.amoebot_state.specs.{Ports.{is_port, behind}, Refusals.{IsBotInRange}, Occupied.{occupied}};
ghost use Rattle.amoebot_state.specs.Zones.{shown_alone};
ghost use Rattle.tri_lattice.specs.{Extent.{is_in}, Lattice.{IsNear}};
ghost use Rattle.ring_guard.specs.Rings.{ring_in};
ghost use Rattle.model_ops.specs.Operations.{need, connected, is_free, is_free_node, owner, read, write};
ghost use Rattle.model_ops.specs.Operations.{is_value, peer, seen_over, expand, contract, push, pull};
ghost use Rattle.model_ops.specs.{Operations.{may_leave, grow, shrink}, Reaches.{Reaches, move}};
ghost use Rattle.model_ops.specs.{WorkingCopies.{opened, own_id, own_bot, copy_after, changes}, Sites.{done}};

use crate::changes::push_changed;
use crate::member::{Member, ROOM, gather, id_on, place_of};
use crate::peer::Peer;
use amoebot_state::{Bot, End, Failure, Found, Moved, Patch, Port};
use arrayvec::ArrayVec;
use ring_guard::one_arc;
use std::marker::Model;
use tri_lattice::{Area, Node};

/// The walls among the nodes of a zone.
type Walls = ArrayVec<Node, 10>;

/// A working copy that looks among its amoebots for each answer.
/// The amoebot itself is the first of them.
#[derive(Drop)]
pub(crate) struct Draft {
    pub(crate) members: ArrayVec<Member, ROOM>,
    pub(crate) walls: Walls,
    pub(crate) area: Area,
    pub(crate) maxes: [u8; 8],
    pub(crate) own: u16,
}

impl Model for Draft {
    ghost use Rattle.amoebot_state.specs.Configs.{walled_frame};
    ghost use Rattle.model_ops.specs.{WorkingCopies.{WorkingCopy}, Members.{copy_of, IsSite}};

    ghost Value = { WorkingCopy };

    ghost view = { λ s. copy_of (walled_frame s.area s.walls.items s.maxes) s.own s.members.items };

    ghost invariant = { λ s. IsSite (walled_frame s.area s.walls.items s.maxes) s.own s.members.items };
}

impl Draft {
    /// The copy at first: what was found, and no other amoebot. It takes no memory.
    pub fn new(found: &Found) -> Draft
        ensures { result ≡ opened found.now }
    {
        let mut members = ArrayVec::new();
        gather(&mut members, found);
        let mut walls = ArrayVec::new();
        copy_walls(&mut walls, found.walls());
        Draft {
            members,
            walls,
            area: found.area(),
            maxes: found.maxes(),
            own: found.bot(),
        }
    }

    /// Whether the node behind a port is occupied. NoPort, where it is none of the amoebot's.
    pub fn connected(&self, port: Port) -> Result<bool, Failure>
        ensures { result ≡ connected self.now.reached (own_id self.now) port }
    {
        let node = self.behind(port)?;
        Ok(self.occupant(node).is_some())
    }

    /// Whether the node behind a port is in the area, no wall and empty.
    /// NoPort, where it is none of the amoebot's.
    pub fn is_free(&self, port: Port) -> Result<bool, Failure>
        ensures { result ≡ is_free self.now.reached (own_id self.now) port }
    {
        let node = self.behind(port)?;
        Ok(self.is_free_node(node))
    }

    /// The value of a variable below 8: without a port the amoebot's own,
    /// with one that of the occupant behind it.
    /// NoPort; NoNeighbour, where that node has none.
    #[inline(never)]
    pub fn read(&self, port: Option<Port>, var: u8) -> Result<u8, Failure>
        requires { var < most_vars }
        ensures { result ≡ read self.now.reached (own_id self.now) port var }
    {
        let id = self.owner(port)?;
        Ok(self.bot(id).mem[usize::from(var)])
    }

    /// What is seen of the neighbour behind a port. NoPort; NoNeighbour.
    pub fn peer(&self, port: Port) -> Result<Peer, Failure>
        ensures { result ≡ peer self.now.reached (own_id self.now) port }
    {
        let id = self.neighbour(port)?;
        Ok(seen_over(self.own(), port, self.bot(id)))
    }

    /// Gives a variable below 8 a value: without a port the amoebot's own,
    /// with one that of the occupant behind it.
    /// NoPort; NoNeighbour; OutOfRange, the value is not in 0 to the variable's maximum.
    /// A write that fails changes nothing.
    pub fn write(&mut self, port: Option<Port>, var: u8, value: i32) -> Result<(), Failure>
        requires { var < most_vars }
        ensures value { result ≡ done (write self.old.reached (own_id self.old) port var value) }
        ensures after { self.new ≡ copy_after self.old
            (write self.old.reached (own_id self.old) port var value) }
    {
        let id = self.owner(port)?;
        let stored = self.stored(var, value)?;
        let mut bot = *self.bot(id);
        bot.mem[usize::from(var)] = stored;
        self.put(id, bot);
        Ok(())
    }

    /// The amoebot's head enters the node behind a port, and its tail stays.
    /// NotContracted, it is expanded; NoPort; Edge, the node is outside the area; Blocked,
    /// it is a wall; Occupied.
    pub fn expand(&mut self, port: Port) -> Result<(), Failure>
        ensures value { result ≡ done (expand self.old.reached (own_id self.old) port) }
        ensures after { self.new ≡ copy_after self.old (expand self.old.reached (own_id self.old) port) }
    {
        let own = self.own();
        if !own.is_contracted() {
            return Err(Failure::NotContracted);
        }
        let node = self.behind(port)?;
        if !self.is_in(node) {
            return Err(Failure::Edge);
        }
        if self.is_wall(node) {
            return Err(Failure::Blocked);
        }
        if self.occupant(node).is_some() {
            return Err(Failure::Occupied);
        }
        self.grow(self.own_id(), node);
        Ok(())
    }

    /// The amoebot leaves the node of an end, and is contracted in its other one.
    /// NotExpanded, it is contracted; WouldSplit, the guard is on and the occupied nodes round
    /// the node, of which its other one is one, are not one arc.
    pub fn contract(&mut self, end: End, guard: bool) -> Result<(), Failure>
        ensures value { result ≡ done (contract self.old.reached (own_id self.old) guard end) }
        ensures after { self.new ≡ copy_after self.old
            (contract self.old.reached (own_id self.old) guard end) }
    {
        let own = self.own();
        if own.is_contracted() {
            return Err(Failure::NotExpanded);
        }
        let node = own.end_node(end);
        if !self.may_leave(guard, node) {
            return Err(Failure::WouldSplit);
        }
        self.shrink(self.own_id(), node);
        Ok(())
    }

    /// The neighbour behind a port leaves the node there, and the amoebot's head enters it.
    /// NotContracted; NoPort; NoNeighbour; PeerNotExpanded, the neighbour is contracted.
    pub fn push(&mut self, port: Port) -> Result<(), Failure>
        ensures value { result ≡ done (push self.old.reached (own_id self.old) port) }
        ensures after { self.new ≡ copy_after self.old (push self.old.reached (own_id self.old) port) }
    {
        if !self.own().is_contracted() {
            return Err(Failure::NotContracted);
        }
        let id = self.neighbour(port)?;
        if self.bot(id).is_contracted() {
            return Err(Failure::PeerNotExpanded);
        }
        let node = self.own().behind(port);
        self.shrink(id, node);
        self.grow(self.own_id(), node);
        Ok(())
    }

    /// The amoebot leaves the node that a port is on, and the head
    /// of the neighbour behind the port enters it.
    /// NotExpanded; NoPort; NoNeighbour; PeerNotContracted, the neighbour is expanded.
    #[tactic(auto, using(crate::proofs::Answered::neighbour_next))]
    pub fn pull(&mut self, port: Port) -> Result<(), Failure>
        ensures value { result ≡ done (pull self.old.reached (own_id self.old) port) }
        ensures after { self.new ≡ copy_after self.old (pull self.old.reached (own_id self.old) port) }
    {
        if self.own().is_contracted() {
            return Err(Failure::NotExpanded);
        }
        let id = self.neighbour(port)?;
        if !self.bot(id).is_contracted() {
            return Err(Failure::PeerNotContracted);
        }
        let node = self.own().end_node(port.end);
        self.shrink(self.own_id(), node);
        self.grow(id, node);
        Ok(())
    }

    /// Makes a movement. With the guard on, it leaves no node that is not surrounded by one arc.
    pub fn make(&mut self, guard: bool, moved: Moved) -> Result<(), Failure>
        ensures value { result ≡ done (move self.old.reached (own_id self.old) guard moved) }
        ensures after { self.new ≡ copy_after self.old (move self.old.reached (own_id self.old) guard moved) }
    {
        match moved {
            Moved::None => Ok(()),
            Moved::Expand(port) => self.expand(port),
            Moved::Contract(end) => self.contract(end, guard),
            Moved::Push(port) => self.push(port),
            Moved::Pull(port) => self.pull(port),
        }
    }

    /// Adds the cells that differ from what was found, with their values then and now,
    /// to an empty patch: at most one node, which stands first, and the bodies in rising id.
    /// What the copy has reached is reached by writes and then at most one movement.
    pub fn push_changes(&self, patch: &mut Patch)
        requires none { patch.old ≡ [] }
        requires reaches { Reaches (shown_alone self.now.found) (own_id self.now) self.now.reached }
        ensures { patch.new ≡ changes self.now }
    {
        push_changed(patch, self.members.as_slice(), &self.members[0]);
    }

    /// The id of the amoebot itself.
    pub(crate) fn own_id(&self) -> u16
        ensures value { result ≡ own_id self.now }
        ensures there { IsSome (bot_at self.now.reached result) }
    {
        self.own
    }

    /// The amoebot itself, as it is now.
    pub fn own(&self) -> &Bot
        ensures value { bot_at self.now.reached (own_id self.now) ≡ Some result.now }
        ensures in_range { IsBotInRange result.now }
    {
        &self.members[0].now
    }

    /// The amoebot with an id.
    #[inline(never)]
    pub(crate) fn bot(&self, id: u16) -> &Bot
        requires { IsSome (bot_at self.now.reached id) }
        ensures value { bot_at self.now.reached id ≡ Some result.now }
        ensures in_range { IsBotInRange result.now }
    {
        let place = place_of(self.members.as_slice(), id);
        &self.members[place].now
    }

    /// The id of a node's occupant.
    fn occupant(&self, node: Node) -> Option<u16>
        ensures { result ≡ occupant self.now.reached node }
    {
        id_on(self.members.as_slice(), node)
    }

    /// Whether the node can be entered.
    fn is_free_node(&self, node: Node) -> bool
        ensures { result ≡ is_free_node self.now.reached node }
    {
        self.is_in(node) && !self.is_wall(node) && self.occupant(node).is_none()
    }

    /// Whether the node is a wall.
    fn is_wall(&self, node: Node) -> bool
        ensures { result ≡ is_wall self.now.reached node }
    {
        has_node(self.walls.as_slice(), node) && self.area.index(node).is_some()
    }

    /// Whether the node lies in the area.
    fn is_in(&self, node: Node) -> bool
        ensures value { result ≡ is_in self.now.reached.area node }
        ensures near { result ≡ true → IsNear node }
    {
        self.area.index(node).is_some()
    }

    /// The node behind a port of the amoebot.
    fn behind(&self, port: Port) -> Result<Node, Failure>
        ensures { let b = own_bot self.now in
            result ≡ need (is_port b port) Failure.NoPort (Ok (behind b port)) }
    {
        let own = self.own();
        if own.is_port(port) {
            Ok(own.behind(port))
        } else {
            Err(Failure::NoPort)
        }
    }

    /// The id of the occupant behind a port.
    fn neighbour(&self, port: Port) -> Result<u16, Failure>
        ensures value { result ≡ owner self.now.reached (own_id self.now) (Some port) }
        ensures there { IfOk result (λ id. IsSome (bot_at self.now.reached id)) }
    {
        let node = self.behind(port)?;
        self.occupant(node).ok_or(Failure::NoNeighbour)
    }

    /// Whose memory is meant: the amoebot's own, or that of the occupant behind a port.
    fn owner(&self, port: Option<Port>) -> Result<u16, Failure>
        ensures value { result ≡ owner self.now.reached (own_id self.now) port }
        ensures there { IfOk result (λ id. IsSome (bot_at self.now.reached id)) }
    {
        match port {
            Some(port) => self.neighbour(port),
            None => Ok(self.own),
        }
    }

    /// The number as a variable keeps it, where it is one of its values.
    fn stored(&self, var: u8, value: i32) -> Result<u8, Failure>
        requires { var < most_vars }
        ensures { result ≡ need (is_value self.now.reached.maxes var value) Failure.OutOfRange
            (Ok (unsigned_abs value)) }
    {
        if value < 0 || value > i32::from(self.maxes[usize::from(var)]) {
            Err(Failure::OutOfRange)
        } else {
            Ok(value as u8)
        }
    }

    /// Whether the guard lets a node be left.
    fn may_leave(&self, guard: bool, node: Node) -> bool
        requires { IsNear node }
        ensures { result ≡ may_leave self.now.reached guard node }
    {
        !guard || one_arc(self.occupied_round(node))
    }

    /// Which of the six neighbours of a node are occupied.
    fn occupied_round(&self, node: Node) -> [bool; 6]
        requires { IsNear node }
        ensures { result ≡ ring_in (occupied self.now.reached) node }
    {
        let ring = node.ring();
        [
            self.occupant(ring[0]).is_some(),
            self.occupant(ring[1]).is_some(),
            self.occupant(ring[2]).is_some(),
            self.occupant(ring[3]).is_some(),
            self.occupant(ring[4]).is_some(),
            self.occupant(ring[5]).is_some(),
        ]
    }

    /// The head of an amoebot enters a node.
    fn grow(&mut self, id: u16, node: Node)
        requires there { IsSome (bot_at self.old.reached id) }
        requires near { IsNear node }
        ensures { self.new ≡ record self.old { reached = grow self.old.reached id node } }
    {
        let bot = *self.bot(id);
        self.put(id, Bot { head: node, ..bot });
    }

    /// An amoebot leaves a node of its own, and is contracted in its other one.
    fn shrink(&mut self, id: u16, node: Node)
        requires { IsSome (bot_at self.old.reached id) }
        ensures value { self.new ≡ record self.old { reached = shrink self.old.reached id node } }
        ensures ids { (i : ℕ) → is_some (bot_at self.new.reached i) ≡ is_some (bot_at self.old.reached i) }
    {
        let bot = *self.bot(id);
        let kept = if bot.head == node { bot.tail } else { bot.head };
        self.put(
            id,
            Bot {
                head: kept,
                tail: kept,
                ..bot
            },
        );
    }

    /// Puts another amoebot in the place of the one with an id.
    pub fn put(&mut self, id: u16, bot: Bot)
        requires there { IsSome (bot_at self.old.reached id) }
        requires in_range { IsBotInRange bot }
        ensures { self.new ≡ record self.old { reached = set_bot self.old.reached id bot } }
    {
        let place = place_of(self.members.as_slice(), id);
        self.members[place].now = bot;
    }
}

/// Whether one of the nodes is this one.
fn has_node(nodes: &[Node], node: Node) -> bool
    ensures { result ≡ has_node nodes.now node }
{
    nodes.iter().any(|other| *other == node)
}

/// Puts these nodes in the place of what the list has. Mostly there are none.
fn copy_walls(copy: &mut Walls, nodes: &[Node])
    requires { length nodes.now ≤ most_nodes }
    ensures { copy.new.items ≡ nodes.now }
{
    copy.clear();
    if nodes.is_empty() {
        return;
    }
    match copy.try_extend_from_slice(nodes) {
        Ok(()) => {}
        Err(_) => unreachable!(),
    }
}

/// What an amoebot sees of a neighbour over the edge behind its port.
pub(crate) fn seen_over(own: &Bot, port: Port, other: &Bot) -> Peer
    requires own { IsBotInRange own.now }
    requires port { IsTrue (is_port own.now port) }
    requires other { IsBotInRange other.now }
    ensures { result ≡ seen_over own.now port other.now }
{
    Peer {
        expanded: !other.is_contracted(),
        at_head: other.head == own.behind(port),
        dir: other.local(own.global(port.dir).opposite()),
    }
}
