//! Programs as their canonical texts.
#![tactic(auto)]

mod expression;
mod laws;
mod program;
mod statement;
mod token;

pub use laws::{canon_ignores_lines, canon_is_pinned, canon_reads_back};
pub use program::{print_program, put_program};
