//! The callers' lists, the journal, the marks and the report of a concurrent run,
//! and what makes a report a good one.
//! And the machine that the callers' claims, decisions, commits and releases step.
#![tactic(auto)]

mod cells;
mod journal;
mod laws;
mod lists;
mod machine;
mod marks;
mod owner;
mod report;
mod state;

pub use cells::{cell_number, cells_of};
pub use journal::Journal;
pub use laws::{
    committed_is_journal, committed_is_shown, ended_stays, entry_is_decided, held_by_one,
    holds_nothing_has_no_tag, is_always_sound, journal_is_merge, merge_is_one, next_is_first,
    one_list_is_never_busy, one_list_is_serial, reached_is_good, rounds_are_enough,
    rounds_leave_a_report, serial_run_is_determined, state_has_one_report, tag_tells_its_owner,
    ticket_reached_is_good, ticket_reached_is_reached, ticket_steps_are_events, tickets_are_claims,
    tickets_are_sound, tickets_hold_no_journal, tickets_leave_a_report, tickets_wait_for_nobody,
};
pub use lists::Lists;
pub use machine::Core;
pub use marks::{Mark, Marks};
pub use owner::{tag, tag_bot, tag_caller, tag_turn};
pub use report::Report;
pub use state::{Caller, Committed, Look, Phase};
