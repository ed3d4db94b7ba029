//! What the grammars of the sections say. The functions do nothing: their clauses are the laws.

ghost use Rattle.std.specs.Prelude.{ℕ};
ghost use Rattle.text_tokens.specs.Lawful.{Exact, IsDecided};
ghost use Rattle.schedule_text.specs.{ListRows.{ListsAreRead}, Lists.{IsLists}};
ghost use Rattle.schedule_text.specs.{Readers.{a_schedule, the_lists}, ScheduleRows.{SchedulesAreRead}};
ghost use Rattle.schedule_text.specs.Schedules.{IsSchedule};

/// Of any tokens the grammar of lists says one thing, and its reader answers that.
pub fn lists_are_decided()
    ensures exact { (bots : ℕ) → Exact (IsLists bots) (the_lists bots) }
    ensures decided { (bots : ℕ) → IsDecided (IsLists bots) }
    ensures read { ListsAreRead }
{}

/// So does that of a schedule.
pub fn schedules_are_decided()
    ensures exact { (callers : ℕ) → Exact (IsSchedule callers) (a_schedule callers) }
    ensures decided { (callers : ℕ) → IsDecided (IsSchedule callers) }
    ensures read { SchedulesAreRead }
{}
