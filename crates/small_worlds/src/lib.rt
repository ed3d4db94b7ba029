//! Small worlds, with programs and lists of turns, for the tests and the examples of other crates;
//! and what some steps leave of a row of three or five nodes, computed.
#![tactic(auto)]

mod laws;
mod programs;
mod worlds;

pub use laws::{small_interleaving, small_serial_turns, small_tickets};
pub use programs::{AtEdge, Expander, Idler, Marker};
pub use worlds::{lists_of, node, spread, standing, turned, world_in, world_of};
