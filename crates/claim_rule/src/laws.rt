//! Laws of the rule.
ghost use Rattle.claim_rule.specs.Manners.{CommitWay};
ghost use Rattle.claim_rule.specs.Laws.{OpeningStands, SplitChangesNothing, JoinChangesNothing, FoundIsShown};
ghost use Rattle.claim_rule.specs.Laws.{StateIsDetermined, FieldEndsOneWay, FieldEndsSound, FieldEndsRight};
ghost use Rattle.claim_rule.specs.Laws.{EndedFieldIsReached, EndedTicketsAreReached};

use amoebot_state::Decider;

/// A table that begins as a field does stands for the opening.
pub fn opening_stands<D: Decider>(_decider: &D)
    ensures { (way : CommitWay) → OpeningStands way D.verdict }
{}

/// A seat that gives its first record to a new seat leaves the state as it was.
pub fn split_changes_nothing<D: Decider>(_decider: &D)
    ensures { (way : CommitWay) → SplitChangesNothing way D.verdict }
{}

/// A seat that takes in the records of another leaves the state as it was.
pub fn join_changes_nothing<D: Decider>(_decider: &D)
    ensures { (way : CommitWay) → JoinChangesNothing way D.verdict }
{}

/// What a caller has found that holds its whole zone is what the last world shows its amoebot,
/// until its turn has its mark.
pub fn found_is_shown<D: Decider>(_decider: &D)
    ensures { (way : CommitWay) → FoundIsShown way D.verdict }
{}

/// Words, values at home and views stand for at most one state that steps of the callers lead to.
pub fn state_is_determined<D: Decider>(_decider: &D)
    ensures { (way : CommitWay) → StateIsDetermined way D.verdict }
{}

/// What a field leaves is determined by what its seats know, once each caller's seat is there.
pub fn field_ends_one_way<D: Decider>(_decider: &D)
    ensures { (way : CommitWay) → FieldEndsOneWay way D.verdict }
{}

/// What a field leaves is a run of the model in the callers' order,
/// and each mark of its seats is right as far as the callers have come.
/// Where all seats are there and hold nothing, as at `close`, each mark is right,
/// whether or not the callers have ended.
pub fn field_ends_sound<D: Decider>(_decider: &D)
    ensures so_far { (way : CommitWay) → FieldEndsSound way D.verdict }
    ensures right { (way : CommitWay) → FieldEndsRight way D.verdict }
{}

/// What a field leaves whose callers have all ended, with the marks of its seats,
/// is a report that some interleaving gives.
pub fn ended_field_is_reached<D: Decider>(_decider: &D)
    ensures { EndedFieldIsReached D.verdict }
{}

/// The same of a field whose commits draw their places:
/// it is a report that steps of that kind give.
pub fn ended_tickets_are_reached<D: Decider>(_decider: &D)
    ensures { EndedTicketsAreReached D.verdict }
{}
