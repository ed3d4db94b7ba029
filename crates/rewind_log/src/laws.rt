ghost use Rattle.rewind_log.specs.Laws.{StepBackIsUnique, StepBackOrNone, BackIsUnique, LastNoStepIsUnique};
ghost use Rattle.rewind_log.specs.Laws.{BackHasNoLastNoStep, BackOrLastNoStep, RunsLeadBack, BacksAreRuns};
ghost use Rattle.rewind_log.specs.Laws.{UnwoundIsUnique, UnwoundIsSome, RunsKeepFrame, UnwindingUndoesRuns};

/// At most one valid configuration has a step of an entry to a configuration.
pub fn step_back_is_unique()
    ensures { StepBackIsUnique }
{}

/// One has, or none.
pub fn step_back_or_none()
    ensures { StepBackOrNone }
{}

/// At most one world is the one at a place, seen from the last one.
pub fn back_is_unique()
    ensures { BackIsUnique }
{}

/// At most one place is the greatest from which there is no step.
pub fn last_no_step_is_unique()
    ensures { LastNoStepIsUnique }
{}

/// Where there is a world at a place, there is no such place.
pub fn back_has_no_last_no_step()
    ensures { BackHasNoLastNoStep }
{}

/// From a valid world there is one or the other.
pub fn back_or_last_no_step()
    ensures { BackOrLastNoStep }
{}

/// Rewinding is the inverse of the run: where entries are a run,
/// the world that so many of them lead to is the one at that place, seen from the last one.
pub fn runs_lead_back()
    ensures { RunsLeadBack }
{}

/// And where there is a world at place 0, the entries are a run from it.
pub fn backs_are_runs()
    ensures { BacksAreRuns }
{}

/// To go back to a place comes to at most one thing.
pub fn unwound_is_unique()
    ensures { UnwoundIsUnique }
{}

/// And from a valid world to one.
pub fn unwound_is_some()
    ensures { UnwoundIsSome }
{}

/// A run changes neither the area nor the walls nor the number of amoebots.
pub fn runs_keep_frame()
    ensures { RunsKeepFrame }
{}

/// So for the first and the last world of a run, to go back to a place comes
/// to the world that so many entries lead to.
pub fn unwinding_undoes_runs()
    ensures { UnwindingUndoesRuns }
{}
