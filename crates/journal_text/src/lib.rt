//! The sections `journal` and `turns` as text, both ways.
#![tactic(auto)]

mod forms;
mod journal;
mod laws;
mod printed;
mod turns;

pub use journal::{Counts, Entries, EntriesIn, PlainEntries, read_journal, read_plain};
pub use laws::{
    journal_is_decided, journals_read_back, plain_journal_is_decided, plain_journals_read_back,
    plain_keeps_limits, texts_are_printed, turns_are_decided, turns_read_back,
};
pub use printed::{print_journal, print_plain, print_turns, put_journal, put_plain, put_turns};
pub use turns::read_turns;
