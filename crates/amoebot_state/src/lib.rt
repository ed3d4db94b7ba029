//! Amoebots, cells and worlds, what an amoebot is shown of a world, and what it decides on that.
#![tactic(auto)]

mod bot;
mod cell;
mod decider;
mod fit;
mod found;
mod frame;
mod grid;
mod known_zone;
mod laws;
mod next;
mod refusal;
mod verdict;
mod way;
mod world;
mod zone;

pub use bot::{ALL_PORTS, Bot, Chir, End, Port};
pub use cell::{CELL_ROOM, Cell, CellName, MOST_CELLS, MOST_PAIRS, Patch, PlainPatch};
pub use decider::{Decider, has_next, is_exact, old_values_are_found, touches_zone};
pub use found::{Behind, Found};
pub use known_zone::KnownZone;
pub use laws::{
    beside_has_the_same_walls, beside_holds_the_same, contracted_has_six_ports, diff_leads,
    expanded_has_ten_ports, faultless_has_no_fault, faultless_is_valid, first_fault_is_unique,
    first_refusal_is_unique, front_grows, front_stands, global_and_local_are_inverse,
    known_grows_at_its_end, known_is_front, lawful_has_no_refusal, next_is_in_zone, next_is_new,
    node_behind_port_is_in_zone, nodes_are_their_numbers, none_is_outside_the_zone,
    occupant_behind_port_is_in_zone, occupied_is_occupant, old_values_are_one,
    ordered_patch_is_diff, patch_lists_what_differs, patched_is_unique, port_leads_beside,
    reversed_leads_back, run_has_one_last, same_value_is_equality, serial_turn_is_unique,
    shown_alone_has_the_zone, shown_alone_holds_the_same, shown_alone_is_valid,
    shown_alone_shows_the_same, shown_has_the_walls, shown_holds_values, shown_lists_zone,
    six_ports_lead_to_six_nodes, small_faults, small_refusals, step_has_one_result,
    ten_ports_lead_to_eight_nodes, valid_is_faultless, walled_frame_is_valid, whole_zone_is_shown,
    zone_has_at_most_nine_bodies, zone_has_at_most_ten_nodes, zone_is_determined,
    zone_lists_each_cell_once,
};
pub use next::next_cell;
pub use refusal::{NoMemory, WorldRefusal};
pub use verdict::{Change, Entry, Failure, Moved, PlainEntry, Turned, Verdict};
pub use world::World;
