//! The rule over the words, slots and views of the table that callers share,
//! and the calls that are single steps on it.
#![tactic(auto)]

mod activation;
mod cells;
mod claimed;
mod close;
mod drawn;
mod field;
mod held;
mod journal_box;
mod laws;
mod make;
mod manner;
mod node_steps;
mod notes;
mod placed;
mod release;
mod renewal;
mod rule;
mod seat;
mod seats;
mod settled;
mod step_laws;
mod stopped;
mod taken;
mod views;
mod words;

pub use claimed::{Claimed, look, seal, unseal};
pub use drawn::draw;
pub use field::Field;
pub use held::{Held, begin, win};
pub use journal_box::JournalBox;
pub use laws::{
    ended_field_is_reached, ended_tickets_are_reached, field_ends_one_way, field_ends_sound,
    found_is_shown, join_changes_nothing, opening_stands, split_changes_nothing,
    state_is_determined,
};
pub use manner::{ByJournal, ByTicket, Manner};
pub use node_steps::{Noted, look_at, try_at};
pub use placed::{Committed, Looked, Placed, Receipt, Seen};
pub use release::{Freeing, end, free_last};
pub use rule::ClaimRule;
pub use seat::Seat;
pub use seats::Seats;
pub use settled::{Settled, unsettle};
pub use step_laws::{
    claim_is_next, commit_is_next, draw_is_next, look_is_next, node_claim_is_next,
    node_look_is_next, node_release_is_next, release_is_next, take_is_next,
};
pub use stopped::{Refused, Stopped, Tag, refuse};
pub use taken::{Taken, store, take};
pub use views::{Key, Note, Record, Slot, Terms, View};
