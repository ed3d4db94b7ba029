//! Commits that wait for nobody: a field on which a commit draws its place, turns on it,
//! and the merge of what the callers committed.
#![tactic(auto)]

mod all_turns;
mod close;
mod field;
mod laws;
mod merge;
mod own;
mod seat;
mod seated;
mod seats;
mod ticket_turn;
mod ticket_turns;

pub use all_turns::{TicketTurns, TicketWorked, work_tickets};
pub use field::TicketField;
pub use laws::{own_list_is_one, own_list_is_unpacked};
pub use seat::TicketSeat;
pub use seats::TicketSeats;
pub use ticket_turn::{TicketTurn, activate_ticket};
