use crate::marks::Mark;
use amoebot_state::{Cell, CellName, Change, Entry, Failure, Found};
use std::collections::LinkedList;

/// A decision that changes nothing.
#[derive(Clone, Copy, Debug, PartialEq, Eq)]
pub enum Look {
    Idle,
    Failed(Failure),
}

/// What a caller does next.
#[derive(Drop)]
pub enum Phase {
    /// It tries the next cell of the zone.
    Claim,
    /// It found this tag at this cell, and reads the journal's length.
    Refusing(CellName, u64),
    /// It holds the whole zone, and reads the journal's length.
    Looking(Look),
    /// It holds the whole zone, and tries to take the journal.
    Taking(Change),
    /// It holds the whole zone and the journal, and commits.
    Committing(Change),
    /// It frees the cell that was won last.
    Releasing,
    /// It has made all its turns.
    Ended,
}

/// A caller: its turn, its phase, the cells that it holds, the one won last at the front,
/// each with its value as it was recorded, and the marks of its turns so far.
pub struct Caller {
    pub turn: u32,
    pub phase: Phase,
    pub held: LinkedList<(CellName, Cell)>,
    pub marks: LinkedList<Mark>,
}

/// An entry that a caller committed, with its place in the journal and what was found for it.
pub struct Committed {
    pub place: u32,
    pub entry: Entry,
    pub found: Found,
}
