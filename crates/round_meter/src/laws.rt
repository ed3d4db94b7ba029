ghost use Rattle.round_meter.specs.Laws.{RoundIsUnique, RoundsAreUnique, EachRunIsRounded, MeterTellsRounds};
ghost use Rattle.round_meter.specs.Laws.{MetersTellTheSame, GoesOnWithIsUnique, GoesOnInIsUnique};

use serial_model::{EntryForm, plain_step_is_unique};

/// The round from a start ends at one place at most.
pub fn round_is_unique()
    ensures { RoundIsUnique }
{}

/// At most one number counts the rounds of a run, and one those that wait.
pub fn rounds_are_unique()
    ensures { RoundsAreUnique }
{}

/// Each run from a valid configuration without gaps has these numbers.
pub fn each_run_is_rounded()
    ensures { EachRunIsRounded }
{}

/// A meter that stands for a run tells them.
pub fn meter_tells_rounds()
    ensures { MeterTellsRounds }
{}

/// Meters that stand for one run tell the same.
pub fn meters_tell_the_same()
    ensures { MetersTellTheSame }
{}

/// A meter goes on with an entry in one way.
pub fn goes_on_with_is_unique()
    ensures { GoesOnWithIsUnique }
{}

/// A meter goes on with what is told in a form in one way, and that tells one entry.
pub fn goes_on_in_is_unique<E: EntryForm>()
    ensures { GoesOnInIsUnique E.form }
{
    plain_step_is_unique();
}
