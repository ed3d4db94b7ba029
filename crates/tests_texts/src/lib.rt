//! Tests of texts: tokens, each section and whole documents, read and printed.
//! Other crates of tests have from here the templates that texts are put together from.
#![tactic(auto)]

mod template;

pub use template::{Piece, text_of};

#[cfg(test)]
mod documents;
#[cfg(test)]
mod faults;
#[cfg(test)]
mod form_tables;
#[cfg(test)]
mod journal_texts;
#[cfg(test)]
mod journals;
#[cfg(test)]
mod least_versions;
#[cfg(test)]
mod limits;
#[cfg(test)]
mod lines;
#[cfg(test)]
mod lists;
#[cfg(test)]
mod old_values;
#[cfg(test)]
mod pieces;
#[cfg(test)]
mod programs;
#[cfg(test)]
mod roles;
#[cfg(test)]
mod runs;
#[cfg(test)]
mod schedules;
#[cfg(test)]
mod shape_texts;
#[cfg(test)]
mod shapes;
#[cfg(test)]
mod token_laws;
#[cfg(test)]
mod tokens;
#[cfg(test)]
mod trees;
#[cfg(test)]
mod turns;
#[cfg(test)]
mod walls;
