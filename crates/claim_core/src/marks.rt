ghost use Rattle.std.specs.Prelude.{◌≡◌, ◌+◌, ◌<◌, ◌∷◌, ◌++◌, [], length, replicate, slice_get, slice_set};
ghost use Rattle.std.specs.Prelude.{IfOk, Some};
ghost use Rattle.claim_core.specs.Turns.{AreFew, MarkLists, marks_of};

use amoebot_state::{CellName, Failure, NoMemory};
use std::alloc::Global;
use std::marker::Model;

/// What became of a turn.
/// The place is the number of entries of the journal at the moment that the mark speaks of.
#[derive(Clone, Copy, Debug, PartialEq, Eq)]
pub enum Mark {
    /// The turn committed the entry with this number.
    Done {
        place: u32,
    },
    Idle {
        place: u32,
    },
    Failed {
        failure: Failure,
        place: u32,
    },
    /// A cell of the zone was held, in that turn of that caller on that amoebot.
    Busy {
        cell: CellName,
        by_caller: u8,
        by_turn: u32,
        by_bot: u16,
        place: u32,
    },
}

/// The marks of the callers' turns, with room for the marks of all turns.
#[derive(Drop)]
pub struct Marks {
    turns: u32,
    marks: Vec<Vec<Mark>>,
}

impl Model for Marks {
    ghost use Rattle.std.specs.Prelude.{map};
    ghost use Rattle.claim_core.specs.{Turns.{MarkLists}, Rooms.{HaveRoom}};

    ghost Value = { MarkLists };

    ghost view = { λ m. record { turns = m.turns; marks = map (λ v. v.items) m.marks.items } };

    ghost invariant = { λ m. HaveRoom m.turns m.marks.items };
}

impl Marks {
    /// No mark yet, and room for all of them: at most 16 callers and at most 65,536 turns in all.
    pub fn make(alloc: Global, callers: u8, turns: u32) -> Result<Marks, NoMemory>
        requires { AreFew callers turns }
        ensures { IfOk result (λ marks. marks ≡ record { turns = turns; marks = replicate callers [] }) }
    {
        let mut marks = Vec::new(alloc);
        for _caller in 0..callers {
            let mut room: Vec<Mark> = Vec::new(alloc);
            room.reserve_exact(turns as usize)?;
            marks.push(room)?;
        }
        Ok(Marks { turns, marks })
    }

    /// Adds the mark of a caller's next turn. It takes no memory.
    pub fn add(&mut self, caller: u8, mark: Mark)
        requires caller { caller < length self.old.marks }
        requires next { length (marks_of self.old caller) < self.old.turns }
        ensures { self.new ≡ record {
          turns = self.old.turns;
          marks = slice_set self.old.marks caller (marks_of self.old caller ++ mark ∷ []);
        } }
    {
        self.marks[usize::from(caller)].push_reserved(mark);
    }

    /// The mark of a caller's turn, which has its mark.
    pub fn mark(&self, caller: u8, turn: u32) -> Mark
        requires caller { caller < length self.now.marks }
        requires turn { turn < length (marks_of self.now caller) }
        ensures { slice_get (marks_of self.now caller) turn ≡ Some result }
    {
        self.marks[usize::from(caller)][turn as usize]
    }

    /// How many callers there are.
    pub fn callers(&self) -> u8
        ensures { result ≡ length self.now.marks }
    {
        self.marks.len() as u8
    }

    /// How many marks a caller has.
    pub fn count(&self, caller: u8) -> u32
        requires { caller < length self.now.marks }
        ensures { result ≡ length (marks_of self.now caller) }
    {
        self.marks[usize::from(caller)].len() as u32
    }
}
