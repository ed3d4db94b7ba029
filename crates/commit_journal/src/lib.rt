//! The commit of a change: it waits until the caller has the journal.
#![tactic(auto)]

mod commits;

pub use commits::{commit, try_commit};
