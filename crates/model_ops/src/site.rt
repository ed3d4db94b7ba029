ghost use Rattle.std.specs.Prelude.{◌≡◌, ◌<◌, [], Some, None};
ghost use Rattle.amoebot_state.specs.{Limits.{most_vars}, Configs.{bot_at}, Refusals.{IsBotInRange}};
ghost use Rattle.amoebot_state.specs.Zones.{shown_alone};
ghost use Rattle.model_ops.specs.Operations.{connected, is_free, read, write, peer, expand, contract};
ghost use Rattle.model_ops.specs.{Operations.{push, pull}, Reaches.{Reaches, move}};
ghost use Rattle.model_ops.specs.{WorkingCopies.{opened, own_id, copy_after, changes}, Sites.{done}};

use crate::behind::{connected_there, free_there, owner_there};
use crate::draft::{Draft, seen_over};
use crate::near::body_near;
use crate::own::{draft_of, push_own, with_value};
use crate::peer::Peer;
use amoebot_state::{Bot, End, Failure, Found, Moved, Patch, Port};
use std::marker::Model;

/// A working copy of what an amoebot was shown, on which it operates before anything is committed.
///
/// It reads what was found where it lies, and keeps its own amoebot beside it.
/// From then on that it writes to a neighbour or tries a movement, it works on a draft.
/// Until a movement succeeds, its answers are those of each world that shows what was found.
/// Once one has, the nodes round a new place were not found:
/// what stands there is not known to the copy, which takes them for empty.
#[derive(Drop)]
pub struct Site<'f> {
    found: &'f Found,
    /// The amoebot itself, as it has written to itself, until there is a draft.
    own: Bot,
    draft: Option<Draft>,
}

impl<'f> Model for Site<'f> {
    ghost use Rattle.model_ops.specs.{WorkingCopies.{WorkingCopy}, Drafts.{IsOwn, copy_in}};

    ghost Value = { WorkingCopy };

    ghost view = { λ s. copy_in s.found.now s.own s.draft };

    ghost invariant = { λ s. IsOwn s.found.now s.own };
}

impl<'f> Site<'f> {
    /// The copy at first: what was found, and no other amoebot. It takes no memory.
    pub fn new(found: &'f Found) -> Site<'f>
        ensures { result ≡ opened found.now }
    {
        Site {
            found,
            own: *found.own(),
            draft: None,
        }
    }

    /// Whether the node behind a port is occupied. NoPort, where it is none of the amoebot's.
    pub fn connected(&self, port: Port) -> Result<bool, Failure>
        ensures { result ≡ connected self.now.reached (own_id self.now) port }
    {
        match &self.draft {
            None => connected_there(self.found.behind(port)),
            Some(draft) => draft.connected(port),
        }
    }

    /// Whether the node behind a port is in the area, no wall, and empty.
    /// NoPort, where it is none of the amoebot's.
    pub fn is_free(&self, port: Port) -> Result<bool, Failure>
        ensures { result ≡ is_free self.now.reached (own_id self.now) port }
    {
        match &self.draft {
            None => free_there(self.found.behind(port)),
            Some(draft) => draft.is_free(port),
        }
    }

    /// The value of a variable below 8: without a port the amoebot's own,
    /// with one that of the occupant behind it.
    /// NoPort; NoNeighbour, where that node has none.
    #[inline(always)]
    pub fn read(&self, port: Option<Port>, var: u8) -> Result<u8, Failure>
        requires { var < most_vars }
        ensures { result ≡ read self.now.reached (own_id self.now) port var }
    {
        match &self.draft {
            None => match port {
                None => Ok(self.own.mem[usize::from(var)]),
                Some(port) => {
                    let id = owner_there(self.found.behind(port))?;
                    let bot = body_near(self.found, &self.own, id, port);
                    Ok(bot.mem[usize::from(var)])
                }
            },
            Some(draft) => draft.read(port, var),
        }
    }

    /// What is seen of the neighbour behind a port. NoPort; NoNeighbour.
    pub fn peer(&self, port: Port) -> Result<Peer, Failure>
        ensures { result ≡ peer self.now.reached (own_id self.now) port }
    {
        match &self.draft {
            None => {
                let id = owner_there(self.found.behind(port))?;
                let bot = body_near(self.found, &self.own, id, port);
                Ok(seen_over(&self.own, port, bot))
            }
            Some(draft) => draft.peer(port),
        }
    }

    /// Gives a variable below 8 a value: without a port the amoebot's own,
    /// with one that of the occupant behind it.
    /// NoPort; NoNeighbour; OutOfRange, the value is not in 0 to the variable's maximum.
    /// A write that fails changes nothing.
    pub fn write(&mut self, port: Option<Port>, var: u8, value: i32) -> Result<(), Failure>
        requires { var < most_vars }
        ensures value { result ≡ done (write self.old.reached (own_id self.old) port var value) }
        ensures after { self.new ≡ copy_after self.old
            (write self.old.reached (own_id self.old) port var value) }
    {
        match &mut self.draft {
            None => match port {
                None => {
                    let own = with_value(self.found, &self.own, var, value)?;
                    self.own = own;
                    Ok(())
                }
                Some(_) => {
                    let mut draft = draft_of(self.found, &self.own);
                    let outcome = draft.write(port, var, value);
                    self.draft = Some(draft);
                    outcome
                }
            },
            Some(draft) => draft.write(port, var, value),
        }
    }

    /// The amoebot's head enters the node behind a port, and its tail stays.
    /// NotContracted, it is expanded; NoPort; Edge, the node is outside the area; Blocked,
    /// it is a wall; Occupied.
    pub fn expand(&mut self, port: Port) -> Result<(), Failure>
        ensures value { result ≡ done (expand self.old.reached (own_id self.old) port) }
        ensures after { self.new ≡ copy_after self.old (expand self.old.reached (own_id self.old) port) }
    {
        self.make(false, Moved::Expand(port))
    }

    /// The amoebot leaves the node of an end, and is contracted in its other one.
    /// NotExpanded, it is contracted; WouldSplit, the guard is on and the occupied nodes round
    /// the node, of which its other one is one, are not one arc.
    pub fn contract(&mut self, end: End, guard: bool) -> Result<(), Failure>
        ensures value { result ≡ done (contract self.old.reached (own_id self.old) guard end) }
        ensures after { self.new ≡ copy_after self.old
            (contract self.old.reached (own_id self.old) guard end) }
    {
        self.make(guard, Moved::Contract(end))
    }

    /// The neighbour behind a port leaves the node there, and the amoebot's head enters it.
    /// NotContracted; NoPort; NoNeighbour; PeerNotExpanded, the neighbour is contracted.
    pub fn push(&mut self, port: Port) -> Result<(), Failure>
        ensures value { result ≡ done (push self.old.reached (own_id self.old) port) }
        ensures after { self.new ≡ copy_after self.old (push self.old.reached (own_id self.old) port) }
    {
        self.make(false, Moved::Push(port))
    }

    /// The amoebot leaves the node that a port is on, and the head
    /// of the neighbour behind the port enters it.
    /// NotExpanded; NoPort; NoNeighbour; PeerNotContracted, the neighbour is expanded.
    pub fn pull(&mut self, port: Port) -> Result<(), Failure>
        ensures value { result ≡ done (pull self.old.reached (own_id self.old) port) }
        ensures after { self.new ≡ copy_after self.old (pull self.old.reached (own_id self.old) port) }
    {
        self.make(false, Moved::Pull(port))
    }

    /// Makes a movement, on a draft.
    fn make(&mut self, guard: bool, moved: Moved) -> Result<(), Failure>
        ensures value { result ≡ done (move self.old.reached (own_id self.old) guard moved) }
        ensures after { self.new ≡ copy_after self.old (move self.old.reached (own_id self.old) guard moved) }
    {
        match &mut self.draft {
            None => {
                let mut draft = draft_of(self.found, &self.own);
                let outcome = draft.make(guard, moved);
                self.draft = Some(draft);
                outcome
            }
            Some(draft) => draft.make(guard, moved),
        }
    }

    /// The cells that differ from what was found, with their values now: at most one node,
    /// which stands first, and the bodies in rising id.
    /// What the copy has reached is reached by writes and then at most one movement.
    pub fn patch(&self) -> Patch
        requires { Reaches (shown_alone self.now.found) (own_id self.now) self.now.reached }
        ensures { result ≡ changes self.now }
    {
        let mut patch = Patch::new();
        self.push_changes(&mut patch);
        patch
    }

    /// Adds the same cells to an empty patch.
    #[inline(always)]
    pub fn push_changes(&self, patch: &mut Patch)
        requires none { patch.old ≡ [] }
        requires reaches { Reaches (shown_alone self.now.found) (own_id self.now) self.now.reached }
        ensures { patch.new ≡ changes self.now }
    {
        match &self.draft {
            None => push_own(patch, self.found, &self.own),
            Some(draft) => draft.push_changes(patch),
        }
    }

    /// The amoebot itself, as it is now.
    pub fn own(&self) -> &Bot
        ensures value { bot_at self.now.reached (own_id self.now) ≡ Some result.now }
        ensures in_range { IsBotInRange result.now }
    {
        match &self.draft {
            None => &self.own,
            Some(draft) => draft.own(),
        }
    }
}
