//! What the grammars of the sections say of their tokens.
//! The functions do nothing: their clauses are the laws.

ghost use Rattle.std.specs.Prelude.{ℕ};
ghost use Rattle.text_tokens.specs.Lawful.{Exact, IsDecided};
ghost use Rattle.journal_text.specs.Journals.{IsJournal, IsPlainJournal};
ghost use Rattle.journal_text.specs.{JournalRows.{PlainJournalsAreRead}, OldValueRows.{JournalsAreRead}};
ghost use Rattle.journal_text.specs.{Turns.{IsTurns}, TurnRows.{TurnsAreRead}};
ghost use Rattle.journal_text.specs.Rereading.{JournalsReadBack, PlainJournalsReadBack, PlainKeepsLimits};
ghost use Rattle.journal_text.specs.{Rereading.{TurnsReadBack}, TextRows.{TextsArePrinted}};
ghost use Rattle.journal_text.specs.Readers.{journal, plain_journal, the_turns};

/// Of any tokens the grammar of a journal with old values says one thing,
/// and its reader answers that.
pub fn journal_is_decided()
    ensures exact { (bots actions vars : ℕ)
        → Exact (IsJournal bots actions vars) (journal bots actions vars) }
    ensures decided { (bots actions vars : ℕ) → IsDecided (IsJournal bots actions vars) }
    ensures read { JournalsAreRead }
{}

/// So does that of a journal without them.
pub fn plain_journal_is_decided()
    ensures exact { (bots actions vars : ℕ)
        → Exact (IsPlainJournal bots actions vars) (plain_journal bots actions vars) }
    ensures decided { (bots actions vars : ℕ) → IsDecided (IsPlainJournal bots actions vars) }
    ensures read { PlainJournalsAreRead }
{}

/// So does that of turns.
pub fn turns_are_decided()
    ensures exact { (version : ℕ) → Exact (IsTurns version) (the_turns version) }
    ensures decided { (version : ℕ) → IsDecided (IsTurns version) }
    ensures read { TurnsAreRead }
{}

/// Small journals and turns with their texts.
pub fn texts_are_printed()
    ensures { TextsArePrinted }
{}

/// Entries that break no limit are read back from their text.
pub fn journals_read_back()
    ensures { JournalsReadBack }
{}

/// So are those without old values.
pub fn plain_journals_read_back()
    ensures { PlainJournalsReadBack }
{}

/// An entry that breaks no limit breaks none without its old values.
pub fn plain_keeps_limits()
    ensures { PlainKeepsLimits }
{}

/// The text of marks is one of turns.
pub fn turns_read_back()
    ensures { TurnsReadBack }
{}
