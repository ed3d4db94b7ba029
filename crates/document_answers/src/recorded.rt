//! What a document has of a run that it records, as the commands that look at its journal take it.

ghost use Rattle.std.specs.Prelude.{◌≡◌, length, IsSome, None};
ghost use Rattle.shape_files.specs.{Fitting.{Fits}, Views.{contents}};
ghost use Rattle.document_answers.specs.Recorded.{HasItsJournal, IsJournalIn, IsOfBots, full_of, IsRecordOf};

use action_eval::Runner;
use amoebot_state::World;
use journal_text::{Entries, PlainEntries};
use shape_files::{Form, Parts};

/// The journal of a document.
#[derive(Drop)]
pub enum Journal {
    /// With the old values of each patch.
    Full(Entries),
    /// Without them.
    Plain(PlainEntries),
}

impl Journal {
    /// The entries with their old values, if it has them.
    pub fn full(self) -> Option<Entries>
        ensures { result ≡ full_of self }
    {
        match self {
            Journal::Full(full) => Some(full),
            Journal::Plain(_) => None,
        }
    }
}

/// What a document has that a command with a journal looks at:
/// the program, the shape at the start, the final shape, and the journal.
/// The amoebots of the entries are the start's.
pub fn recorded_in(parts: Parts) -> (Runner, World, World, Journal)
    requires { Fits Form.Replay (contents parts) }
    ensures { IsRecordOf (contents parts) result.0 result.1 result.2 result.3 }
{
    let Parts {
        checked,
        world,
        entries,
        plain,
        final_world,
        ..
    } = parts;
    let runner = Runner::new(checked.unwrap());
    let start = world.unwrap();
    let last = final_world.unwrap();
    (runner, start, last, journal_in(entries, plain))
}

/// The journal with old values, if there is one, and else the other.
fn journal_in(entries: Option<Entries>, plain: Option<PlainEntries>) -> Journal
    requires { entries ≡ None → IsSome plain }
    ensures { IsJournalIn entries plain result }
{
    match entries {
        Some(full) => Journal::Full(full),
        None => Journal::Plain(plain.unwrap()),
    }
}
