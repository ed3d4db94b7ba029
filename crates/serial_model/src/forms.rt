//! The forms in which a journal has its entries.

ghost use Rattle.std.specs.Prelude.{◌≡◌, ℕ, Decides};
ghost use Rattle.amoebot_state.specs.{declared.verdict.Change.{Change}, declared.verdict.Entry.{Entry}};
ghost use Rattle.amoebot_state.specs.{Pairs.{plain_patch, plain_triple}, Steps.{entry_of, plain_entry}};
ghost use Rattle.serial_model.specs.{Forms.{IsForm, full_entry}, FormLaws.{full_is_form, plain_is_form}};

use amoebot_state::{Cell, CellName, Change, Entry, Moved, Patch, PlainEntry, PlainPatch};

/// What a journal has of an entry: all of it, or all but the old values of its patch.
pub trait EntryForm: Sized {
    /// What the form has of an entry.
    ghost form: { Entry → Self };

    /// The amoebot whose entry it was.
    ghost bot: { Self → ℕ };

    /// The entry of a change, with the caller, the turn and the amoebot that are told.
    ghost entry: { Self → Change → Entry };

    /// Whether it tells this change.
    fn tells(&self, change: &Change) -> bool
        ensures { Decides result (form (entry self.now change.now) ≡ self.now) };

    /// The amoebot whose entry it was.
    fn bot(&self) -> u16
        ensures { result ≡ bot self.now };

    /// The entry of a change, with the caller, the turn and the amoebot that are told.
    fn entry(&self, change: Change) -> Entry
        ensures { result ≡ entry self.now change };

    /// It has all but the old values, and tells an entry by its change.
    ghost is_form: { IsForm form bot entry };
}

impl EntryForm for Entry {
    ghost form = { full_entry };

    ghost bot = { λ e. e.bot };

    ghost entry = { λ e change. entry_of e.caller e.turn e.bot change };

    fn tells(&self, change: &Change) -> bool {
        does(self.action, self.moved, change) && self.patch.triples() == change.patch.triples()
    }

    fn bot(&self) -> u16 {
        self.bot
    }

    fn entry(&self, change: Change) -> Entry {
        entry_by(self.caller, self.turn, self.bot, change)
    }

    ghost is_form = { full_is_form };
}

impl EntryForm for PlainEntry {
    ghost form = { plain_entry };

    ghost bot = { λ p. p.bot };

    ghost entry = { λ p change. entry_of p.caller p.turn p.bot change };

    fn tells(&self, change: &Change) -> bool {
        does(self.action, self.moved, change) && same_plain(&self.patch, &change.patch)
    }

    fn bot(&self) -> u16 {
        self.bot
    }

    fn entry(&self, change: Change) -> Entry {
        entry_by(self.caller, self.turn, self.bot, change)
    }

    ghost is_form = { plain_is_form };
}

/// The entry of a change that a caller's turn makes on an amoebot.
pub(crate) fn entry_by(caller: u8, turn: u32, bot: u16, change: Change) -> Entry
    ensures { result ≡ entry_of caller turn bot change }
{
    Entry {
        caller,
        turn,
        bot,
        action: change.action,
        moved: change.moved,
        patch: change.patch,
    }
}

/// Whether this is the action of a change, and its movement.
#[inline(always)]
fn does(action: u8, moved: Moved, change: &Change) -> bool
    ensures { Decides result ((action ≡ change.now.action) × (moved ≡ change.now.moved)) }
{
    action == change.action && moved == change.moved
}

/// Whether this is the patch without its old values.
fn same_plain(plain: &PlainPatch, patch: &Patch) -> bool
    ensures { Decides result (plain.now ≡ plain_patch patch.now) }
{
    let pairs = plain.pairs();
    let triples = patch.triples();
    if pairs.len() != triples.len() {
        return false;
    }
    for (place, pair) in pairs.iter().enumerate() {
        if !same_pair(pair, &triples[place]) {
            return false;
        }
    }
    true
}

/// Whether the pair is the triple without its old value.
#[inline(always)]
fn same_pair(pair: &(CellName, Cell), triple: &(CellName, Cell, Cell)) -> bool
    ensures { Decides result (pair.now ≡ plain_triple triple.now) }
{
    pair.0 == triple.0 && pair.1 == triple.2
}
