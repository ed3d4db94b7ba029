//! The two ways in which a change is committed.
ghost use Rattle.std.specs.Prelude.{◌≡◌, Some, true};
ghost use Rattle.tri_lattice.specs.Extent.{Extent};
ghost use Rattle.claim_core.specs.Cells.{number};
ghost use Rattle.claim_rule.specs.Manners.{CommitWay, by_journal, by_ticket, has_slot, length_in, slot_of};

use amoebot_state::CellName;

/// How callers commit.
pub trait Manner: Sized {
    ghost way: { CommitWay };

    /// The journal's length, by the word that tells it.
    fn length(word: u64) -> u64
        ensures { result ≡ length_in way word };

    /// Whether a cell is slotted: its word is its tag, and its value has a slot.
    fn has_slot(cell: CellName) -> bool
        ensures { result ≡ has_slot way cell };

    /// The number of a slotted cell's slot, where `cell_number` is that of the cell.
    fn slot(cell: CellName, cell_number: usize) -> usize
        ensures { (a : Extent) → number a cell ≡ Some cell_number
            → has_slot way cell ≡ true → result ≡ slot_of way a cell };
}

/// The journal is taken before a commit, and freed with it.
/// A node has a word of its own kind, and no slot.
#[derive(Drop)]
pub struct ByJournal;

impl Manner for ByJournal {
    ghost way = { by_journal };

    fn length(word: u64) -> u64 {
        word / 2
    }

    fn has_slot(cell: CellName) -> bool {
        matches!(cell, CellName::Body(_))
    }

    fn slot(cell: CellName, _cell_number: usize) -> usize {
        match cell {
            CellName::Body(id) => usize::from(id),
            CellName::Spot(_) => 0,
        }
    }
}

/// A commit draws its place, in one step. Each cell has a slot.
#[derive(Drop)]
pub struct ByTicket;

impl Manner for ByTicket {
    ghost way = { by_ticket };

    fn length(word: u64) -> u64 {
        word
    }

    fn has_slot(_cell: CellName) -> bool {
        true
    }

    fn slot(_cell: CellName, cell_number: usize) -> usize {
        cell_number
    }
}
