//! The last part of `run`: it makes the text of what workers have made, and writes it.
//! It waits for nothing.

ghost use Rattle.claim_core.specs.Good.{Good};
ghost use Rattle.action_meaning.specs.Verdicts.{verdict_shown};
ghost use Rattle.commands.specs.Tasks.{IsCounted, Tells};
ghost use Rattle.amoebot_run.specs.Parts.{IsEndedRun};

use crate::ended::{Ended, end_with, end_with_answer};
use crate::turns::{Made, MadeTurns};
use action_eval::Runner;
use amoebot_state::NoMemory;
use claim_core::Lists;
use commands::{Telling, tell};
use document_answers::Status;
use outer_io::Sink;
use std::alloc::Global;

/// Tells the report that workers have made, and keeps what became of the turns.
pub fn finish<K: Sink>(
    alloc: Global,
    out: &mut K,
    telling: Telling,
    runner: &Runner,
    lists: &Lists,
    made: Made,
) -> Ended
    requires good { Good (verdict_shown runner.now) made.report.journal.first lists.now made.report }
    requires few { IsCounted telling made.report }
    ensures { IsEndedRun K.Sink out.old out.new (Tells telling runner.now lists.now made.report) made result }
{
    let Made { report, turns } = made;
    match tell(alloc, telling, runner, lists, report) {
        Ok(answer) => match turns {
            MadeTurns::Journal(turns) => end_with_answer(out, answer, Some(turns), None),
            MadeTurns::Tickets(tickets) => end_with_answer(out, answer, None, Some(tickets)),
        },
        Err(NoMemory) => end_with(Status::NoMemory),
    }
}
