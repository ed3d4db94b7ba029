//! Measures of a shape: whether it is connected, whether it is a hexagon,
//! and how often a variable has a value.
#![tactic(auto)]

mod arc;
mod connected;
mod disc;
mod hexagon;
mod laws;
mod values;

pub use connected::is_connected;
pub use hexagon::is_hexagon;
pub use laws::{hexagon_laws, measures_are_decided, ring_laws};
pub use values::count_value;
