//! Deciders that look at the others.
ghost use Rattle.std.specs.Prelude.{◌≡◌, ◌&&◌, nat_le, if◌then◌else◌};
ghost use Rattle.small_worlds.specs.Marking.{marking};
ghost use Rattle.std.specs.List.{count_by};
ghost use Rattle.tests_model.specs.Choosing.{is_other_with};

use amoebot_state::{Cell, CellName, Decider, Found, Verdict};
use small_worlds::Marker;

/// Sets variable 0 from 0 to 1 if at least and at most so many of the others
/// that it is shown have this value in it.
#[derive(Clone, Copy, Drop)]
pub struct Choosing {
    pub value: u8,
    pub least: usize,
    pub most: usize,
}

/// Marks an amoebot beside a marked one.
pub const PASSING: Choosing = Choosing {
    value: 1,
    least: 1,
    most: 8,
};

/// Marks an amoebot that has fewer than six neighbours without a mark.
pub const ERODING: Choosing = Choosing {
    value: 0,
    least: 0,
    most: 5,
};

impl Decider for Choosing {
    ghost use Rattle.tests_model.specs.Choosing.{choosing, choosing_is_lawful};

    ghost verdict = { λ d. choosing d.value d.least d.most };

    fn decide(&self, found: &Found) -> Verdict {
        let count = others_with(found.cells(), found.bot(), self.value);
        let chosen = self.fits(count);
        decided(found, chosen)
    }

    ghost is_lawful = { λ d. choosing_is_lawful d.value d.least d.most };
}

impl Choosing {
    fn fits(&self, others: usize) -> bool
        ensures { result ≡ (nat_le self.now.least others && nat_le others self.now.most) }
    {
        self.least <= others && others <= self.most
    }
}

fn decided(found: &Found, chosen: bool) -> Verdict
    ensures { result ≡ (if chosen then marking found.now else Verdict.Idle) }
{
    if chosen {
        Marker.decide(found)
    } else {
        Verdict::Idle
    }
}

fn others_with(cells: &[(CellName, Cell)], bot: u16, value: u8) -> usize
    ensures { result ≡ count_by (is_other_with bot value) cells.now }
{
    let mut others = 0;
    for (name, cell) in cells {
        if is_other_with(name, cell, bot, value) {
            others += 1;
        }
    }
    others
}

fn is_other_with(name: &CellName, cell: &Cell, bot: u16, value: u8) -> bool
    ensures { result ≡ is_other_with bot value (name.now, cell.now) }
{
    match name {
        CellName::Body(id) => match cell {
            Cell::Body(other) => *id != bot && other.mem[0] == value,
            Cell::Spot(_) => false,
        },
        CellName::Spot(_) => false,
    }
}
