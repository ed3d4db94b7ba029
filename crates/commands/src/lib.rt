//! The commands: the words that ask for them, what is to be done for an input,
//! and what a call owes.
//! None of them reads or writes a byte.
#![tactic(auto)]

mod elect;
mod laws;
mod prepared;
mod replays;
mod run;
mod sample;
mod show;
mod syntax;
mod table;
mod tasks;
mod tickets;
mod words;

pub use elect::{elections_are_won, print_election};
pub use laws::{
    documents_have_outcomes, good_is_few, good_stays_connected, owed_is_one, owed_is_some,
    prepared_is_one, reports_are_of_runs, small_answers, small_commands, small_elections,
    small_explanations, task_is_one,
};
pub use prepared::{Maker, Prepared, Telling, tell};
pub use replays::{
    renewed_is_replayed, rewind_undoes_replay, rounds_end_as_replay, run_texts_are_replayed,
};
pub use run::run_report_is_one;
pub use sample::{prepare_sample, print_sample, sample_text_is_one};
pub use show::answer_show;
pub use table::{Row, row_of};
pub use tasks::{Task, task_of};
pub use words::{Command, DocumentCommand, command_is_its_words, command_of, small_words};
