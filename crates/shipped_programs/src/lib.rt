//! Programs that are known to work, and their texts.
#![tactic(auto)]

mod build;
mod erosion;
mod hexagon;
mod line;
mod shipped;

pub use shipped::{EROSION, HEXAGON, LINE, Shipped, shipped_program, shipped_text};
