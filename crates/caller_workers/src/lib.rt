//! The turns of all callers, each caller's by a worker of its own, whatever one turn is.
#![tactic(auto)]

mod laws;
mod marks;
mod start;
mod turn_maker;
mod turns;
mod worked;
mod workers;

pub use laws::turns_are_one;
pub use marks::copy_marks;
pub use turn_maker::TurnMaker;
pub use turns::Turns;
pub use worked::{Worked, without_lists};
pub use workers::{WorkerState, make_all};
