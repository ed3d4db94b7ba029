//! What holds of verdicts. The functions do nothing: their clauses are the laws.

ghost use Rattle.action_meaning.specs.Laws.{VerdictIsShown, ProgramsDecideByActs};
ghost use Rattle.action_meaning.specs.Laws.{GuardedProgramsDecideGuarded, ProgramStepsStayConnected};
ghost use Rattle.action_meaning.specs.Laws.{ProgramRunsStayConnected, ValuesAreComputed, BlockedIsShown};
ghost use Rattle.action_meaning.specs.Laws.{VerdictIgnoresLines};

/// The verdict on what a valid configuration shows is the verdict on that configuration,
/// ids without an amoebot allowed.
#[tactic(auto, using(crate::proofs::Decided::verdict_is_shown))]
pub fn verdict_is_shown()
    ensures { VerdictIsShown }
{}

/// Each change that a program decides is made by operations of the model,
/// with the guard on or off as the program has it.
#[tactic(auto, using(crate::proofs::Decided::programs_decide_by_acts))]
pub fn changes_are_acts()
    ensures acts { ProgramsDecideByActs }
    ensures guarded { GuardedProgramsDecideGuarded }
{}

/// With the guard on, connected occupied nodes stay connected under each
/// step and each run of a program.
#[tactic(auto, using(crate::proofs::Decided::program_runs_stay_connected))]
pub fn program_runs_stay_connected()
    ensures steps { ProgramStepsStayConnected }
    ensures runs { ProgramRunsStayConnected }
{}

/// No program fails by Blocked on a neighbourhood without walls.
#[tactic(auto, using(crate::proofs::BlockedLemmas::blocked_is_shown))]
pub fn blocked_is_shown()
    ensures { BlockedIsShown }
{}

/// Programs that are equal without their lines have the same verdict on each
/// amoebot of each configuration.
#[tactic(auto, using(crate::proofs::Lineless::verdict_ignores_lines))]
pub fn verdict_ignores_lines()
    ensures { VerdictIgnoresLines }
{}

/// Values, failures and verdicts of small expressions and programs on four configurations,
/// two of them with walls.
/// Each form comes once at least.
#[tactic(auto, using(crate::proofs::Computed::values_are_computed))]
pub fn values_are_computed()
    ensures { ValuesAreComputed }
{}
