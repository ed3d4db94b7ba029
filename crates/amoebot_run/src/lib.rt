//! The top calls: what the words ask for, over a source and a sink, and over bytes in memory.
#![tactic(auto)]

mod begin;
mod calls;
mod ended;
mod finish;
mod turns;

pub use calls::{run, run_text};
pub use document_answers::Status;
pub use ended::Ended;
