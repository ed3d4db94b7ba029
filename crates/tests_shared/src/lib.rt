//! Rows of tests through the top call: pieces of documents with what is written of them,
//! and calls that compare.
#![tactic(auto)]

pub mod calls;
pub mod journals;
pub mod pieces;
pub mod replays;
