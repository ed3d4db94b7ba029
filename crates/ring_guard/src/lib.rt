//! The local guard of a movement: whether the occupied nodes round a node form one arc.
//!
//! A node whose ring is one arc may be taken out of a connected set of nodes, and what is left is
//! connected. That the guard asks for one arc is this project's profile.
#![tactic(auto)]

ghost use Rattle.std.specs.Prelude.{◌↔◌, IsTrue};
ghost use Rattle.ring_guard.specs.Gap.{GapSplits};
ghost use Rattle.ring_guard.specs.Laws.{TakingKeeps, TakingLeaves, AloneIsAll, ArcsAreRows, ArcTable};
ghost use Rattle.ring_guard.specs.Rings.{IsOneArc};

/// Whether the true entries of a ring form one arc.
///
/// Entry `i` stands for the neighbour in direction `i`.
/// True exactly where at least one entry is true and at most one `i` has entry `i` true
/// and entry `(i + 1) mod 6` false.
/// All six true is one arc.
pub fn one_arc(ring: [bool; 6]) -> bool
    ensures { IsTrue result ↔ IsOneArc ring }
{
    let mut some = false;
    let mut ends = 0u8;
    for i in 0..6 {
        if ring[i] {
            some = true;
            if !ring[(i + 1) % 6] {
                ends += 1;
            }
        }
    }
    some && ends < 2
}

/// What one arc says of a connected set, and which rings are one arc.
pub fn arc_laws()
    ensures keeps { TakingKeeps }
    ensures leaves { TakingLeaves }
    ensures alone { AloneIsAll }
    ensures rows { ArcsAreRows }
    ensures table { ArcTable }
{}

/// Two nodes with a gap between them are not connected, though the chain that they end is.
pub fn gap_law()
    ensures { GapSplits }
{}
