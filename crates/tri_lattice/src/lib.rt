//! The triangular lattice: nodes, directions, areas and connected sets of nodes.
//!
//! The lattice is that of the amoebot model's geometric variant.
//! Its coordinates, the numbers of the six directions and the bounds
//! of an area are this project's profile.
#![tactic(auto)]

mod area;
mod dir;
mod laws;
mod node;

pub use area::Area;
pub use dir::Dir;
pub use laws::{area_laws, connected_laws, lattice_laws};
pub use node::{Node, adjacent, distance};
