//! What holds of each `Runner`. The functions do nothing: their clauses are the laws.

ghost use Rattle.action_meaning.specs.Laws.{DecidesVerdict, GuardedStepsStayConnected};
ghost use Rattle.action_meaning.specs.Laws.{GuardedRunsStayConnected};

use crate::runner::Runner;
use amoebot_state::Decider;

/// On what a valid configuration shows to an amoebot of it,
/// a `Runner` decides the verdict of its program on that configuration;
/// ids without an amoebot are allowed.
pub fn runner_decides_verdict(_runner: &Runner)
    ensures { DecidesVerdict (⟦<Runner as Decider>⟧.verdict _runner.now) _runner.now }
{}

/// With the guard on, connected occupied nodes stay connected under each step and each run
/// of a `Runner` from a valid configuration.
pub fn guarded_runs_stay_connected(_runner: &Runner)
    ensures steps { GuardedStepsStayConnected (⟦<Runner as Decider>⟧.verdict _runner.now) _runner.now }
    ensures runs { GuardedRunsStayConnected (⟦<Runner as Decider>⟧.verdict _runner.now) _runner.now }
{}
