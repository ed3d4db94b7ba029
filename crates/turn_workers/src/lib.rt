//! The turns of all callers, each caller's in a worker of its own, over one field.
#![tactic(auto)]

mod activation_turns;
mod all_turns;
mod meet_gate;
mod seated;

pub use all_turns::{Turns, Worked, work};
pub use caller_workers::turns_are_one;
pub use meet_gate::MeetGate;
