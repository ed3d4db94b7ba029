ghost use Rattle.std.specs.Prelude.{◌≡◌};
ghost use Rattle.amoebot_state.specs.Steps.{plain_entry};

use crate::bot::{End, Port};
use crate::cell::{Patch, PlainPatch};

/// Why an activation failed. A failed activation changes nothing (this project's profile).
#[derive(Clone, Copy, Debug, Drop, PartialEq, Eq)]
pub enum Failure {
    /// A pair of an end and a direction that is no port of the amoebot.
    NoPort,
    /// The node behind a port has no occupant.
    NoNeighbour,
    /// A value that is not between 0 and its variable's maximum.
    OutOfRange,
    /// The node to be entered has an occupant.
    Occupied,
    /// The amoebot is expanded where it has to be contracted.
    NotContracted,
    /// The amoebot is contracted where it has to be expanded.
    NotExpanded,
    /// The neighbour is contracted where it has to be expanded.
    PeerNotExpanded,
    /// The neighbour is expanded where it has to be contracted.
    PeerNotContracted,
    /// The node to be entered is outside the area.
    Edge,
    /// The movement might split the shape.
    WouldSplit,
    /// No port meets the condition.
    NoChoice,
    /// The node to be entered is a wall.
    Blocked,
}

/// A movement, with its port as evaluated. `Contract` names the end that is left.
#[derive(Clone, Copy, Debug, Drop, PartialEq, Eq)]
pub enum Moved {
    None,
    Expand(Port),
    Contract(End),
    Push(Port),
    Pull(Port),
}

/// What an activation does: the number of its action, its movement, and the cells that it changes.
#[derive(Drop)]
pub struct Change {
    pub action: u8,
    pub moved: Moved,
    pub patch: Patch,
}

/// What is decided on what was found.
#[derive(Drop)]
pub enum Verdict {
    Idle,
    Failed(Failure),
    Change(Change),
}

/// A committed activation: which turn of which caller it was, on which amoebot, and what it did.
#[derive(Drop)]
pub struct Entry {
    pub caller: u8,
    pub turn: u32,
    pub bot: u16,
    pub action: u8,
    pub moved: Moved,
    pub patch: Patch,
}

/// A committed activation, without the values that its cells had before.
#[derive(Drop)]
pub struct PlainEntry {
    pub caller: u8,
    pub turn: u32,
    pub bot: u16,
    pub action: u8,
    pub moved: Moved,
    pub patch: PlainPatch,
}

impl Entry {
    /// The entry without the old values of its patch.
    pub fn plain(&self) -> PlainEntry
        ensures { result ≡ plain_entry self.now }
    {
        PlainEntry {
            caller: self.caller,
            turn: self.turn,
            bot: self.bot,
            action: self.action,
            moved: self.moved,
            patch: self.patch.plain(),
        }
    }
}

/// What a turn did: an entry for the journal, or nothing.
#[derive(Drop)]
pub enum Turned {
    Done(Entry),
    Idle,
    Failed(Failure),
}
