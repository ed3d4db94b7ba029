//! Claims of whole zones: all cells in zone order or none, and their release.
//! What became of a turn that was made so.
#![tactic(auto)]

mod claims;
mod laws;
mod turn;

pub use claims::{place, release, release_settled, try_claim};
pub use laws::answer_is_unique;
pub use turn::Turn;
