//! How a call ends: with a line, with the text of an answer, or out of memory.

ghost use Rattle.std.specs.Prelude.{◌≡◌, ◌⊎◌, None};
ghost use Rattle.amoebot_run.specs.Parts.{IsEndOfWriting};

use claim_core::Report;
use document_answers::{Answer, Status};
use outer_io::{Sink, WriteFault, write_all};
use ticket_commit::TicketTurns;
use turn_workers::Turns;

/// How a command ended, and what a run left.
#[derive(Drop)]
pub struct Ended {
    pub status: Status,
    pub report: Option<Report>,
    /// What became of the turns, after `run` and `sample`.
    pub turns: Option<Turns>,
    /// What became of the turns, after `tickets`.
    pub tickets: Option<TicketTurns>,
}

/// Ends without a report.
pub fn end_with(status: Status) -> Ended
    ensures { result ≡ record { status = status; report = None; turns = None; tickets = None } }
{
    Ended {
        status,
        report: None,
        turns: None,
        tickets: None,
    }
}

/// Writes the line of a status without a report.
pub fn end_with_line<K: Sink>(out: &mut K, line: &str, status: Status) -> Ended
    ensures written { IsEndOfWriting K.Sink out.old out.new status None None None line.now result }
    ensures status { (result.status ≡ status) ⊎ (result.status ≡ Status.WriteFault) }
{
    match write_all(out, line.as_bytes()) {
        Ok(()) => end_with(status),
        Err(WriteFault) => end_with(Status::WriteFault),
    }
}

/// Writes the text of an answer, and keeps what became of the turns.
pub fn end_with_answer<K: Sink>(
    out: &mut K,
    answer: Answer,
    turns: Option<Turns>,
    tickets: Option<TicketTurns>,
) -> Ended
    ensures { IsEndOfWriting K.Sink out.old out.new answer.status
        answer.report turns tickets answer.text result }
{
    match write_all(out, answer.text.bytes()) {
        Ok(()) => Ended {
            status: answer.status,
            report: answer.report,
            turns,
            tickets,
        },
        Err(WriteFault) => end_with(Status::WriteFault),
    }
}
