//! The two forms of an entry: with old values, and without them.

ghost use Rattle.std.specs.Prelude.{◌≡◌, ◌<◌, ◌∷◌, ◌++◌, ◌&&◌, [], Bool, IsTrue, true, false, length};
ghost use Rattle.std.specs.Option.{unwrap_or};
ghost use Rattle.amoebot_state.specs.{Limits.{most_pairs}, Pairs.{is_alike}};
ghost use Rattle.journal_text.specs.Journals.{WrittenEntry, entry_by, entry_with, plain_by, with_changes};

use amoebot_state::{Cell, CellName, Entry, Moved, Patch, PlainEntry};

/// What is made of an entry as it is written.
pub(crate) trait Form: Drop + Sized {
    /// Whether its texts have old values.
    const HAS_OLD: bool;

    ghost HAS_OLD: { Bool };

    ghost made: { WrittenEntry → Self };

    /// An entry that changes no cell yet.
    fn begin(caller: u8, turn: u32, bot: u16, action: u8, moved: Moved) -> Self
        ensures { result ≡ made (entry_with caller turn bot action moved []) };

    /// Adds a cell last, with its values.
    fn put(&mut self, name: CellName, before: Option<Cell>, value: Cell)
        requires room { (w : WrittenEntry) × (self.old ≡ made w) × (length w.changes < most_pairs) }
        requires alike { IsTrue (is_alike name (unwrap_or before value) && is_alike name value) }
        ensures { (w : WrittenEntry) → self.old ≡ made w
            → self.new ≡ made (with_changes w (w.changes ++ (name, before, value) ∷ [])) };
}

impl Form for Entry {
    ghost HAS_OLD = { true };

    ghost made = { entry_by };

    #[inline(always)]
    fn begin(caller: u8, turn: u32, bot: u16, action: u8, moved: Moved) -> Entry {
        Entry {
            caller,
            turn,
            bot,
            action,
            moved,
            patch: Patch::new(),
        }
    }

    #[inline(always)]
    fn put(&mut self, name: CellName, before: Option<Cell>, value: Cell) {
        self.patch.push(name, before.unwrap_or(value), value);
    }

    const HAS_OLD: bool = true;
}

impl Form for PlainEntry {
    ghost HAS_OLD = { false };

    ghost made = { plain_by };

    #[inline(always)]
    fn begin(caller: u8, turn: u32, bot: u16, action: u8, moved: Moved) -> PlainEntry {
        <Entry as Form>::begin(caller, turn, bot, action, moved).plain()
    }

    #[inline(always)]
    fn put(&mut self, name: CellName, _before: Option<Cell>, value: Cell) {
        self.patch.push(name, value);
    }

    const HAS_OLD: bool = false;
}
