//! What holds of turns. The function does nothing: its clauses are the laws.
ghost use Rattle.caller_workers.specs.Laws.{SmallTurns, TurnsAreOne};

/// The marks of a report have at most one list of turns.
/// Two callers whose four turns are one of each kind have one.
pub fn turns_are_one<W>()
    ensures one { TurnsAreOne W }
    ensures example { SmallTurns }
{}
