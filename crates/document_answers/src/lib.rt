//! What the commands that need no workers answer for a document, and the text of a report.
//! None of them reads or writes a byte.
#![tactic(auto)]

mod answer;
mod check;
mod interleave;
mod lines;
mod measure;
mod recorded;
mod renew;
mod replay;
mod report;
mod rewind;
mod rounds;
mod status;

pub use answer::{Answer, differ, done, refuse};
pub use check::{answer_check, canon_means_the_same, print_check};
pub use interleave::{answer_interleave, interleave_report_is_one, run_interleaved};
pub use lines::{put_answer, put_number, put_word};
pub use measure::{answer_measure, measure_text_is_one, print_measures};
pub use recorded::{Journal, recorded_in};
pub use renew::{answer_renew, follow_all, print_renewed};
pub use replay::{answer_replay, compare, print_agrees, print_differs, replay_is_decided};
pub use report::{answer_report, print_report};
pub use rewind::answer_rewind;
pub use rounds::{RoundCount, answer_rounds, count_rounds, print_rounds, rounds_are_decided};
pub use status::Status;
