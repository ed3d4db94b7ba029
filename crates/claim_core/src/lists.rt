ghost use Rattle.std.specs.Prelude.{◌≡◌, ◌+◌, ◌<◌, ◌∷◌, ◌++◌, [], length, IfOk, OnOk, OnErr};
ghost use Rattle.claim_core.specs.Turns.{CallerLists, IsList, AreFew, AreLists, bot_of_turn};
ghost use Rattle.claim_core.specs.SerialRuns.{all_turns};

use amoebot_state::NoMemory;
use std::alloc::Global;
use std::marker::Model;

/// The lists of the callers, at most 16 of 1 to 4,096 ids each,
/// and the number of turns that each of them has: at most 65,536 for all together.
#[derive(Drop)]
pub struct Lists {
    turns: u32,
    ids: Vec<Vec<u16>>,
}

impl Model for Lists {
    ghost use Rattle.std.specs.Prelude.{map};
    ghost use Rattle.claim_core.specs.Turns.{CallerLists, AreLists};

    ghost Value = { CallerLists };

    ghost view = { λ l. record { turns = l.turns; ids = map (λ v. v.items) l.ids.items } };

    ghost invariant = { λ l. AreLists (record { turns = l.turns; ids = map (λ v. v.items) l.ids.items }) };
}

impl Lists {
    /// No list yet. Each caller will have so many turns.
    pub fn new(alloc: Global, turns: u32) -> Result<Lists, NoMemory>
        ensures { IfOk result (λ lists. lists ≡ record { turns = turns; ids = [] }) }
    {
        Ok(Lists {
            turns,
            ids: Vec::new(alloc),
        })
    }

    /// Adds the list of a next caller.
    pub fn add(&mut self, alloc: Global, ids: &[u16]) -> Result<(), NoMemory>
        requires list { IsList ids.now }
        requires few { AreFew (length self.old.ids + 1) self.old.turns }
        ensures ok { OnOk result (
            self.new ≡ record { turns = self.old.turns; ids = self.old.ids ++ ids.now ∷ [] }) }
        ensures err { OnErr result (self.new ≡ self.old) }
    {
        let ids = Vec::from_slice(alloc, ids)?;
        self.ids.push(ids)?;
        Ok(())
    }

    /// The same lists once more.
    pub(crate) fn copy(&self, alloc: Global) -> Result<Lists, NoMemory>
        ensures { IfOk result (λ lists. lists ≡ self.now) }
    {
        let mut lists = Lists::new(alloc, self.turns)?;
        for ids in &self.ids {
            lists.add(alloc, ids.as_slice())?;
        }
        Ok(lists)
    }

    /// How many callers there are, at most 16.
    pub fn callers(&self) -> u8
        ensures value { result ≡ length self.now.ids }
        ensures lists { AreLists self.now }
    {
        self.ids.len() as u8
    }

    /// The number of turns of each caller.
    pub fn turns(&self) -> u32
        ensures { result ≡ self.now.turns }
    {
        self.turns
    }

    /// How many turns all callers have together.
    pub fn all_turns(&self) -> u32
        ensures { result ≡ all_turns self.now }
    {
        u32::from(self.callers()) * self.turns()
    }

    /// The amoebot of a caller's turn. A caller goes through its list again and again.
    pub fn bot(&self, caller: u8, turn: u32) -> u16
        requires { caller < length self.now.ids }
        ensures { result ≡ bot_of_turn self.now caller turn }
    {
        let ids = &self.ids[usize::from(caller)];
        ids[turn as usize % ids.len()]
    }
}
