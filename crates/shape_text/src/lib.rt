//! The sections `shape` and `final` as text, both ways, and the parts that other sections share:
//! numbers, nodes, ends, ports and amoebots.
#![tactic(auto)]

mod laws;
mod parts;
mod printed;
mod printed_parts;
mod shape;
mod versions;

pub use laws::{
    shapes_are_decided, shapes_are_judged_as_worlds, shapes_read_back, texts_are_printed,
    walls_are_read,
};
pub use parts::{
    Reading, read_bot, read_chirality, read_end, read_int, read_node, read_port, read_up_to,
    read_word, read_word_within,
};
pub use printed::{print_shape, put_shape};
pub use printed_parts::{put_bot, put_node, put_port};
pub use shape::{read_final, read_shape};
pub use versions::{has_old_values, may_have_walls};
