//! From the last world of a journal back to the world at any place of it.
#![tactic(auto)]

mod laws;
mod rewinds;

pub use laws::{
    back_has_no_last_no_step, back_is_unique, back_or_last_no_step, backs_are_runs,
    last_no_step_is_unique, runs_keep_frame, runs_lead_back, step_back_is_unique,
    step_back_or_none, unwinding_undoes_runs, unwound_is_some, unwound_is_unique,
};
pub use rewinds::{back, rewind, unwind};
pub use serial_model::Differs;
