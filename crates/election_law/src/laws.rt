//! What holds of elections. The functions do nothing: their clauses are the laws.

ghost use Rattle.election_law.specs.Laws.{ErosionElects, ErosionOrNot, GuardIsAside, LeaderIsElected};
ghost use Rattle.election_law.specs.Laws.{FirstUnreadyIsUnique, ReadyHasNone, ReadyOrUnready};

/// In every world of every run of `erosion` from a ready start at least one amoebot is a candidate,
/// the nodes of the candidates are connected, and at most one amoebot is the leader,
/// which is then the only candidate.
#[tactic(auto, using(crate::proofs::Elected::erosion_elects))]
pub fn erosion_elects()
    ensures { ErosionElects }
{}

/// The lines and the guard of `erosion` decide nothing.
#[tactic(auto, using(crate::proofs::Aside::guard_is_aside))]
pub fn guard_is_aside()
    ensures { GuardIsAside }
{}

/// In an elected world the first amoebot with `leader` 1 is the leader.
/// Each program is `erosion` or is not.
pub fn election_laws()
    ensures leader { LeaderIsElected }
    ensures decided { ErosionOrNot }
{}

/// At most one refusal of a start is the first.
/// A ready start has none, and each other valid configuration has one.
pub fn start_laws()
    ensures unique { FirstUnreadyIsUnique }
    ensures ready { ReadyHasNone }
    ensures decided { ReadyOrUnready }
{}
