ghost use Rattle.std.specs.Prelude.{◌≡◌, ◌<◌, ◌≤◌, ◌∷◌, ◌++◌, [], length, map};
ghost use Rattle.amoebot_state.specs.{declared.cell.Cell.{Cell}, declared.cell.CellName.{CellName}};
ghost use Rattle.amoebot_state.specs.{Limits.{most_cells}, Pairs.{Pairs}};
ghost use Rattle.claim_core.specs.Machine.{patched_pair};

use crate::renewal::renew;
use amoebot_state::{Cell, CellName, MOST_CELLS};
use std::marker::Model;

/// The cells that a caller holds, the one won first at the front, each with its value.
/// What is behind the last one is of no meaning, so that none is written when a cell goes.
#[derive(Drop)]
pub(crate) struct Cells {
    all: [(CellName, Cell); MOST_CELLS],
    count: usize,
}

impl Model for Cells {
    ghost use Rattle.std.specs.Prelude.{◌≡◌, ◌≤◌, length, take};
    ghost use Rattle.amoebot_state.specs.{Limits.{most_cells}, Pairs.{Pairs}};

    ghost Value = { Pairs };

    ghost view = { λ c. take c.count c.all };

    ghost invariant = { λ c. (c.count ≤ most_cells) × (length c.all ≡ most_cells) };
}

impl Cells {
    /// No cell.
    pub(crate) fn new() -> Cells
        ensures { result ≡ [] }
    {
        Cells {
            all: [(CellName::Body(0), Cell::Spot(None)); MOST_CELLS],
            count: 0,
        }
    }

    /// How many they are.
    pub(crate) fn len(&self) -> usize
        ensures count { result ≡ length self.now }
        ensures few { result ≤ most_cells }
    {
        self.count
    }

    /// No cell any more.
    pub(crate) fn clear(&mut self)
        ensures { self.new ≡ [] }
    {
        self.count = 0;
    }

    /// Adds a cell last.
    pub(crate) fn push(&mut self, name: CellName, value: Cell)
        requires { length self.old < most_cells }
        ensures { self.new ≡ self.old ++ (name, value) ∷ [] }
    {
        self.all[self.count] = (name, value);
        self.count += 1;
    }

    /// The last cell.
    pub(crate) fn last(&self) -> &(CellName, Cell)
        requires { 0 < length self.now }
        ensures { (front : Pairs) × (self.now ≡ front ++ result.now ∷ []) }
    {
        &self.all[self.count - 1]
    }

    /// Takes the last cell away.
    pub(crate) fn drop_last(&mut self)
        requires { 0 < length self.old }
        ensures { (front : Pairs) (last : CellName × Cell)
            → self.old ≡ front ++ last ∷ [] → self.new ≡ front }
    {
        self.count -= 1;
    }

    /// The list of them.
    pub(crate) fn as_slice(&self) -> &[(CellName, Cell)]
        ensures { result.now ≡ self.now }
    {
        &self.all[..self.count]
    }

    /// Gives them their values of a patch; those that it does not name keep theirs.
    pub(crate) fn renew(&mut self, patch: &[(CellName, Cell)])
        ensures { self.new ≡ map (patched_pair patch.now) self.old }
    {
        renew(&mut self.all[..self.count], patch);
    }
}
