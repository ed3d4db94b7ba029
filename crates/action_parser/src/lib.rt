//! Reads programs of guarded actions.
#![tactic(auto)]

mod expression;
mod full;
mod program;
mod roles;
mod selection;
mod statement;
mod words;

pub use program::parse_program;
