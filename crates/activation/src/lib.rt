//! One activation of a caller, from its seat and back to it.
#![tactic(auto)]

mod gate;
mod turn;

pub use gate::{Gate, NoGate};
pub use node_claims::{Turn, answer_is_unique};
pub use turn::activate;
