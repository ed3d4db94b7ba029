//! The interpreter: what a checked program decides on what an amoebot is shown.
#![tactic(auto)]

mod effect;
mod laws;
mod names;
mod number;
mod port;
mod runner;
mod simple;
mod value;

pub use laws::{guarded_runs_stay_connected, runner_decides_verdict};
pub use runner::Runner;
