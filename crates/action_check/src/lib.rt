//! The rules on the names and the numbers of a program.
#![tactic(auto)]

mod checked;
mod declaration;
mod expression;
mod laws;
mod scope;
mod statement;

pub use checked::{Checked, check};
pub use laws::{faultless_is_kept, faults_follow_text, faults_ignore_lines, rows_are_derived};
