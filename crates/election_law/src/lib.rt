//! The leader election by erosion: in every world of every run of `erosion` from a ready start,
//! at most one amoebot is the leader.
#![tactic(auto)]

mod election;
mod erosion;
mod laws;
mod leader;
mod likeness;
mod refusal;
mod start;

pub use election::Election;
pub use erosion::is_erosion;
pub use laws::{election_laws, erosion_elects, guard_is_aside, start_laws};
pub use refusal::ElectRefusal;
