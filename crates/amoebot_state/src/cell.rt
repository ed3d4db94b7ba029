ghost use Rattle.std.specs.Prelude.{◌≡◌, ◌<◌, ◌≤◌, ◌∷◌, ◌++◌, ◌&&◌, [], length, IsTrue, None};
ghost use Rattle.amoebot_state.specs.Limits.{most_pairs};
ghost use Rattle.amoebot_state.specs.Pairs.{is_alike, are_alike, triples_alike, plain_patch};
ghost use Rattle.amoebot_state.specs.Reversals.{reversed_patch};

use crate::bot::Bot;
use arrayvec::ArrayVec;
use std::marker::Model;
use tri_lattice::Node;

/// The name of a cell: a node, or the body of an amoebot by its id.
#[derive(Clone, Copy, Debug, Drop, PartialEq, Eq)]
pub enum CellName {
    Spot(Node),
    Body(u16),
}

/// What a cell holds: the id of a node's occupant, if it has one, or an amoebot.
#[derive(Clone, Copy, Debug, Drop, PartialEq, Eq)]
pub enum Cell {
    Spot(Option<u16>),
    Body(Bot),
}

// The defaults fill the free places of lists of fixed size, and mean nothing else.
impl Default for CellName {
    fn default() -> Self
        ensures { result ≡ CellName.Body 0 }
    {
        CellName::Body(0)
    }
}

impl Default for Cell {
    fn default() -> Self
        ensures { result ≡ Cell.Spot None }
    {
        Cell::Spot(None)
    }
}

/// The most cells of a patch.
pub const MOST_PAIRS: usize = 10;

/// The most cells of a zone.
pub const MOST_CELLS: usize = 19;

/// Room for the cells of a zone.
pub const CELL_ROOM: usize = 30;

/// Cells with their values before and after: a list of at most 10 triples,
/// in each of which all parts are `Spot` or all are `Body`.
#[derive(Drop)]
pub struct Patch {
    triples: ArrayVec<(CellName, Cell, Cell), MOST_PAIRS>,
}

impl Model for Patch {
    ghost use Rattle.amoebot_state.specs.Pairs.{triples_alike, Triples};

    ghost Value = { Triples };

    ghost view = { λ p. p.triples.items };

    ghost invariant = { λ p. triples_alike p.triples.items };
}

impl Patch {
    /// No cell.
    #[inline(always)]
    pub fn new() -> Patch
        ensures { result ≡ [] }
    {
        Patch {
            triples: ArrayVec::new(),
        }
    }

    /// Adds a cell last, with its value before and its value after.
    #[inline(always)]
    pub fn push(&mut self, name: CellName, before: Cell, after: Cell)
        requires room { length self.old < most_pairs }
        requires alike { IsTrue (is_alike name before && is_alike name after) }
        ensures { self.new ≡ self.old ++ (name, before, after) ∷ [] }
    {
        self.triples.push((name, before, after));
    }

    /// The list of the triples.
    pub fn triples(&self) -> &[(CellName, Cell, Cell)]
        ensures value { result.now ≡ self.now }
        ensures few { length self.now ≤ most_pairs }
        ensures alike { triples_alike self.now }
    {
        self.triples.as_slice()
    }

    /// The cells with their values after.
    pub fn plain(&self) -> PlainPatch
        ensures { result ≡ plain_patch self.now }
    {
        let mut plain = PlainPatch::new();
        for (name, _, after) in self.triples() {
            plain.push(*name, *after);
        }
        plain
    }

    /// The patch the other way round: each value before exchanged with the value after.
    pub fn reversed(&self) -> Patch
        ensures { result ≡ reversed_patch self.now }
    {
        let mut back = Patch::new();
        for (name, before, after) in self.triples() {
            back.push(*name, *after, *before);
        }
        back
    }
}

/// A patch without the values before: a list of at most 10 pairs,
/// in each of which both parts are `Spot` or both are `Body`.
#[derive(Drop)]
pub struct PlainPatch {
    pairs: ArrayVec<(CellName, Cell), MOST_PAIRS>,
}

impl Model for PlainPatch {
    ghost use Rattle.amoebot_state.specs.Pairs.{are_alike, Pairs};

    ghost Value = { Pairs };

    ghost view = { λ p. p.pairs.items };

    ghost invariant = { λ p. are_alike p.pairs.items };
}

impl PlainPatch {
    /// No pair.
    pub fn new() -> PlainPatch
        ensures { result ≡ [] }
    {
        PlainPatch {
            pairs: ArrayVec::new(),
        }
    }

    /// Adds a pair last.
    pub fn push(&mut self, name: CellName, cell: Cell)
        requires room { length self.old < most_pairs }
        requires alike { IsTrue (is_alike name cell) }
        ensures { self.new ≡ self.old ++ (name, cell) ∷ [] }
    {
        self.pairs.push((name, cell));
    }

    /// The list of the pairs.
    pub fn pairs(&self) -> &[(CellName, Cell)]
        ensures value { result.now ≡ self.now }
        ensures few { length self.now ≤ most_pairs }
        ensures alike { are_alike self.now }
    {
        self.pairs.as_slice()
    }
}
