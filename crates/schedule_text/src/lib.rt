//! The sections `lists` and `schedule` read.
#![tactic(auto)]

mod known;
mod laws;
mod lists;
mod schedule;

pub use laws::{lists_are_decided, schedules_are_decided};
pub use lists::read_lists;
pub use schedule::{Schedule, read_schedule};
