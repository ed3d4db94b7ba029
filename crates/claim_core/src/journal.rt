ghost use Rattle.std.specs.Prelude.{◌≡◌, ◌+◌, ◌<◌, ◌∷◌, ◌++◌, [], max, IfOk, OnOk, OnErr};
ghost use Rattle.claim_core.specs.Turns.{Kept};

use amoebot_state::{Entry, NoMemory, World};
use std::alloc::Global;
use std::marker::Model;

/// A first world and the entries of the activations that were committed from there on,
/// with room that is reserved for more.
#[derive(Drop)]
pub struct Journal {
    first: World,
    entries: Vec<Entry>,
}

impl Model for Journal {
    ghost use Rattle.std.specs.Prelude.{◌-◌, vec_len, vec_capacity};
    ghost use Rattle.claim_core.specs.Turns.{Kept};

    ghost Value = { Kept };

    ghost view = { λ j. record {
      first = j.first;
      entries = j.entries.items;
      spare = vec_capacity j.entries - vec_len j.entries;
    } };
}

impl Journal {
    /// No entry yet. The first world is a copy of this one.
    pub fn make(alloc: Global, first: &World) -> Result<Journal, NoMemory>
        ensures first { IfOk result (λ journal. journal.first ≡ first.now) }
        ensures entries { IfOk result (λ journal. journal.entries ≡ []) }
    {
        Ok(Journal {
            first: first.copy(alloc)?,
            entries: Vec::new(alloc),
        })
    }

    /// Takes memory for so many more entries, unless there is room for them.
    pub fn reserve(&mut self, _alloc: Global, more: u32) -> Result<(), NoMemory>
        ensures ok { OnOk result (self.new ≡ record self.old { spare = max self.old.spare more }) }
        ensures err { OnErr result (self.new ≡ self.old) }
    {
        self.entries.reserve_exact(more as usize)?;
        Ok(())
    }

    /// Adds an entry last. It takes no memory.
    pub fn push(&mut self, entry: Entry)
        requires { 0 < self.old.spare }
        ensures first { self.new.first ≡ self.old.first }
        ensures entries { self.new.entries ≡ self.old.entries ++ entry ∷ [] }
        ensures spare { self.new.spare + 1 ≡ self.old.spare }
    {
        self.entries.push_reserved(entry);
    }

    /// The entries so far, in the order in which they were committed.
    pub fn entries(&self) -> &[Entry]
        ensures { result.now ≡ self.now.entries }
    {
        self.entries.as_slice()
    }

    /// The world before the first entry.
    pub fn first(&self) -> &World
        ensures { result.now ≡ self.now.first }
    {
        &self.first
    }
}
