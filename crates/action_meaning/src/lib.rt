//! What a program decides.
#![tactic(auto)]

mod laws;

pub use laws::{
    blocked_is_shown, changes_are_acts, program_runs_stay_connected, values_are_computed,
    verdict_ignores_lines, verdict_is_shown,
};
