ghost use Rattle.std.specs.Prelude.{◌≡◌, ◌+◌, ◌<◌, ◌∷◌, ◌++◌, [], IfOk};
ghost use Rattle.claim_core.specs.Turns.{Kept};

use amoebot_state::{Entry, NoMemory};
use claim_core::Journal;
use std::alloc::Global;
use std::marker::Model;

/// A journal in a box of its own, so that no slot is larger than a cell needs.
/// Contracts see it as the journal.
#[derive(Drop)]
pub struct JournalBox {
    journal: Box<Journal>,
}

impl Model for JournalBox {
    ghost use Rattle.claim_core.specs.Turns.{Kept};

    ghost Value = { Kept };

    ghost view = { λ b. b.journal.value };
}

impl JournalBox {
    pub(crate) fn make(alloc: Global, journal: Journal) -> Result<JournalBox, NoMemory>
        ensures { IfOk result (λ made. made ≡ journal) }
    {
        Ok(JournalBox {
            journal: Box::new(alloc, journal)?,
        })
    }

    pub(crate) fn entries(&self) -> &[Entry]
        ensures { result.now ≡ self.now.entries }
    {
        self.journal.entries()
    }

    pub(crate) fn push(&mut self, entry: Entry)
        requires { 0 < self.old.spare }
        ensures first { self.new.first ≡ self.old.first }
        ensures entries { self.new.entries ≡ self.old.entries ++ entry ∷ [] }
        ensures spare { self.new.spare + 1 ≡ self.old.spare }
    {
        self.journal.push(entry);
    }

    pub(crate) fn into_journal(self) -> Journal
        ensures { result ≡ self }
    {
        Box::into_inner(self.journal)
    }
}
