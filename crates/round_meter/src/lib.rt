//! Asynchronous rounds of a run, counted entry by entry.
#![tactic(auto)]

mod enabled;
mod laws;
mod meter;
mod near;
mod progress;
mod standing;
mod tally;

pub use laws::{
    each_run_is_rounded, goes_on_in_is_unique, goes_on_with_is_unique, meter_tells_rounds,
    meters_tell_the_same, round_is_unique, rounds_are_unique,
};
pub use meter::Meter;
