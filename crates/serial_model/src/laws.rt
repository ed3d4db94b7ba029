ghost use Rattle.serial_model.specs.Laws.{FullIsItself, RunIsSteps, PlainStepIsUnique, PlainRunIsUnique};
ghost use Rattle.serial_model.specs.Laws.{FirstNoStepIsUnique, RunHasOnlySteps, RunOrFirstNoStep};
ghost use Rattle.serial_model.specs.Laws.{NoStepIsAnotherVerdict};

use crate::forms::EntryForm;

/// Steps and runs of entries that are told in full are those of the model.
pub fn full_is_itself()
    ensures { FullIsItself }
{}

/// A run of entries in a form is steps of them, one after another.
pub fn run_is_steps<E: EntryForm>()
    ensures { RunIsSteps E.form }
{}

/// At most one place is the first that is no step.
pub fn first_no_step_is_unique<E: EntryForm>()
    ensures { FirstNoStepIsUnique E.form }
{}

/// Entries that are a run have no place that is no step.
pub fn run_has_only_steps<E: EntryForm>()
    ensures { RunHasOnlySteps E.form }
{}

/// Entries are a run, or have a first place that is no step.
pub fn run_or_first_no_step<E: EntryForm>()
    ensures { RunOrFirstNoStep E.form }
{}

/// Take what is told of an amoebot of a valid configuration.
/// It is no step exactly where the verdict on that amoebot
/// is the change of no entry that is told so.
pub fn no_step_is_another_verdict<E: EntryForm>()
    ensures { NoStepIsAnotherVerdict E.form E.bot }
{}

/// A step is determined by its entry without old values.
pub fn plain_step_is_unique()
    ensures { PlainStepIsUnique }
{}

/// Entries without old values are those of one run at most.
pub fn plain_run_is_unique()
    ensures { PlainRunIsUnique }
{}
