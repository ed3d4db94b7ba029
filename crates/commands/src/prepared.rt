//! Runs that are prepared for workers, and the answers that tell their reports.

ghost use Rattle.std.specs.Prelude.{◌≡◌, length, IfOk};
ghost use Rattle.document_answers.specs.Answers.{with_report};
ghost use Rattle.commands.specs.Tasks.{IsCounted, TellsReport};
ghost use Rattle.claim_core.specs.Good.{Good};
ghost use Rattle.action_meaning.specs.Verdicts.{verdict_shown};

use crate::sample::tell_sample;
use action_eval::Runner;
use amoebot_state::{NoMemory, World};
use claim_core::{Lists, Report};
use document_answers::{Answer, answer_report};
use std::alloc::Global;

/// Which text a run that workers made gets.
#[derive(Clone, Copy, Debug, PartialEq, Eq)]
pub enum Telling {
    /// Its report, in the version of its document.
    Report(u8),
    /// The lines of the sample of this number.
    Sample(u32),
}

/// Who makes the turns of lists that are prepared.
#[derive(Clone, Copy, Debug, PartialEq, Eq)]
pub enum Maker {
    /// A worker for each list.
    Workers,
    /// A worker for each list, whose commits draw their places.
    Tickets,
}

/// A run that is prepared: its decider, the world at its start, its callers' lists,
/// which text it gets, and who makes its turns.
#[derive(Drop)]
pub struct Prepared {
    pub runner: Runner,
    pub world: World,
    pub lists: Lists,
    pub telling: Telling,
    pub maker: Maker,
}

/// The answer that has a good report of the lists' turns, with the text that such a run gets.
pub fn tell(
    alloc: Global,
    telling: Telling,
    runner: &Runner,
    lists: &Lists,
    report: Report,
) -> Result<Answer, NoMemory>
    requires good { Good (verdict_shown runner.now) report.journal.first lists.now report }
    requires few { IsCounted telling report }
    ensures { IfOk result (TellsReport telling runner.now lists.now report) }
{
    match telling {
        Telling::Report(version) => tell_report(alloc, version, runner, report),
        Telling::Sample(seed) => tell_sample(alloc, seed, runner, lists, report),
    }
}

/// The answer that tells a report of a program's run in a version.
fn tell_report(
    alloc: Global,
    version: u8,
    runner: &Runner,
    report: Report,
) -> Result<Answer, NoMemory>
    ensures { IfOk result (λ a. a ≡ with_report version (length runner.now.vars) report) }
{
    let checked = runner.checked();
    checked.program();
    answer_report(alloc, version, report, checked.vars())
}
