//! Samples: a shape and callers' lists, made from a number.
#![tactic(auto)]

mod amoebots;
mod laws;
mod lists;
mod whole;

pub use laws::{
    first_empty_is_unique, first_of_seed_one, sample_is_fit, sample_is_some, sample_is_unique,
};
pub use whole::{Sample, make_sample};
