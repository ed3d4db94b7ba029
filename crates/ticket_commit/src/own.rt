//! The list in which a caller keeps what it committed.
ghost use Rattle.std.specs.Prelude.{◌≡◌, ◌+◌, ◌<◌, ◌≤◌, ℕ, ◌∷◌, ◌++◌, ◌↔◌, [], length, drop, slice_get, Some};
ghost use Rattle.std.specs.{Prelude.{IfOk, IsTrue, vec_len, vec_capacity}, List.{All}};
ghost use Rattle.amoebot_state.specs.{Limits.{most_pairs}, Pairs.{triples_alike}, Steps.{entry_of}};
ghost use Rattle.ticket_commit.specs.OwnLists.{OwnEntries, BeginsAt};

use amoebot_state::{Cell, CellName, Change, Entry, MOST_PAIRS, Moved, NoMemory, Patch};
use std::alloc::Global;
use std::marker::Model;

/// An entry without its patch, whose cells lie among those of its list.
#[derive(Clone, Copy, Drop)]
pub(crate) struct Head {
    place: u32,
    turn: u32,
    bot: u16,
    caller: u8,
    action: u8,
    moved: Moved,
    /// The patch is the cells from this place on.
    start: usize,
    /// The place behind the last cell of the patch.
    end: usize,
}

/// The entries that a caller has committed, each with the place that it drew, and room for more.
/// A patch takes as much memory as it has cells.
/// The merge takes the entries from the front.
#[derive(Drop)]
pub(crate) struct OwnList {
    heads: Vec<Head>,
    triples: Vec<(CellName, Cell, Cell)>,
    /// The number of entries that were taken.
    taken: usize,
}

impl Model for OwnList {
    ghost use Rattle.std.specs.Prelude.{◌-◌, drop, vec_len, vec_capacity};
    ghost use Rattle.ticket_commit.specs.{OwnLists.{OwnEntries}, Packed.{unpacked, IsPacked}};

    ghost Value = { OwnEntries };

    ghost view = { λ o. record {
      entries = drop o.taken (unpacked o.heads.items o.triples.items);
      room = vec_capacity o.heads - vec_len o.heads;
    } };

    ghost invariant = { λ o. IsPacked o.heads o.triples o.taken };
}

impl OwnList {
    /// A list with no entry, and room for none.
    pub(crate) fn none(alloc: Global) -> OwnList
        ensures { result.entries ≡ [] }
    {
        OwnList {
            heads: Vec::new(alloc),
            triples: Vec::new(alloc),
            taken: 0,
        }
    }

    /// A list with no entry, and room for those of so many turns.
    pub(crate) fn make(alloc: Global, turns: u32) -> Result<OwnList, NoMemory>
        ensures entries { IfOk result (λ own. own.entries ≡ []) }
        ensures room { IfOk result (λ own. turns ≤ own.room) }
    {
        let turns = turns as usize;
        Ok(OwnList {
            heads: Vec::with_capacity(alloc, turns)?,
            triples: Vec::with_capacity(alloc, MOST_PAIRS * turns)?,
            taken: 0,
        })
    }

    /// Adds the entry of a change last, under its place. It takes no memory.
    #[inline(always)]
    pub(crate) fn push(&mut self, place: u32, caller: u8, turn: u32, bot: u16, change: &Change)
        requires { 0 < self.old.room }
        ensures entries { self.new.entries
            ≡ self.old.entries ++ (place, entry_of caller turn bot change.now) ∷ [] }
        ensures room { self.new.room + 1 ≡ self.old.room }
    {
        let start = self.triples.len();
        push_all(&mut self.triples, change.patch.triples());
        let end = self.triples.len();
        self.heads.push_reserved(Head {
            place,
            turn,
            bot,
            caller,
            action: change.action,
            moved: change.moved,
            start,
            end,
        });
    }

    /// Whether the first entry that was not taken has this place.
    #[inline(always)]
    pub(crate) fn begins_with(&self, place: u32) -> bool
        ensures { IsTrue result ↔ BeginsAt place self.now.entries }
    {
        match self.heads.get(self.taken) {
            Some(head) => head.place == place,
            None => false,
        }
    }

    /// Takes the first entry. It takes no memory.
    #[inline(always)]
    pub(crate) fn take(&mut self) -> Entry
        requires { 0 < length self.old.entries }
        ensures first { (place : ℕ) × (slice_get self.old.entries 0 ≡ Some (place, result)) }
        ensures rest { self.new.entries ≡ drop 1 self.old.entries }
    {
        let head = self.heads[self.taken];
        self.taken += 1;
        let mut entry = Entry {
            caller: head.caller,
            turn: head.turn,
            bot: head.bot,
            action: head.action,
            moved: head.moved,
            patch: Patch::new(),
        };
        fill(&mut entry.patch, &self.triples[head.start..head.end]);
        entry
    }
}

/// A list for each caller, with no entry and room for those of so many turns.
pub(crate) fn own_lists(alloc: Global, callers: u8, turns: u32) -> Result<Vec<OwnList>, NoMemory>
    ensures count { IfOk result (λ lists. length lists.items ≡ callers) }
    ensures each { IfOk result (λ lists. All (λ own. (own.entries ≡ []) × (turns ≤ own.room)) lists.items) }
{
    let mut lists = Vec::new(alloc);
    for _caller in 0..callers {
        lists.push(OwnList::make(alloc, turns)?)?;
    }
    Ok(lists)
}

/// Adds cells last, for which there is room.
#[inline(always)]
fn push_all(triples: &mut Vec<(CellName, Cell, Cell)>, cells: &[(CellName, Cell, Cell)])
    requires { vec_len triples.old + length cells.now ≤ vec_capacity triples.old }
    ensures items { triples.new.items ≡ triples.old.items ++ cells.now }
    ensures len { vec_len triples.new ≡ vec_len triples.old + length cells.now }
    ensures capacity { vec_capacity triples.new ≡ vec_capacity triples.old }
{
    for cell in cells {
        triples.push_reserved(*cell);
    }
}

/// Gives a patch that has no cell these ones.
#[inline(always)]
fn fill(patch: &mut Patch, cells: &[(CellName, Cell, Cell)])
    requires none { patch.old ≡ [] }
    requires few { length cells.now ≤ most_pairs }
    requires alike { triples_alike cells.now }
    ensures { patch.new ≡ cells.now }
{
    for (name, before, after) in cells {
        patch.push(*name, *before, *after);
    }
}
