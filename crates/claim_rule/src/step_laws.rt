//! Each step of a seat, at whatever table stands for a state,
//! leads to a table that stands for the state after its caller's next step;
//! a free word of a node that is found and not won leaves the state as it was.
//! There is such a step, and each that keeps the rule and tells what it has to tell is one.
ghost use Rattle.claim_rule.specs.{Manners.{CommitWay}, declared.views.Terms.{Terms}};
ghost use Rattle.claim_rule.specs.Nexts.{ClaimIsNext, ReleaseIsNext, LookIsNext, TakeIsNext, CommitIsNext};
ghost use Rattle.claim_rule.specs.Nexts.{DrawIsNext, NodeLookIsNext, NodeClaimIsNext, NodeReleaseIsNext};

use amoebot_state::Decider;

/// A look at a node's word, which is noted where it is free, and else is a refused claim.
pub fn node_look_is_next<D: Decider>(_decider: &D)
    ensures { (z : Terms D) → NodeLookIsNext D.verdict z }
{}

/// A try to put the tag into the noted word of a node: won, refused, or noted again.
pub fn node_claim_is_next<D: Decider>(_decider: &D)
    ensures { (z : Terms D) → NodeClaimIsNext D.verdict z }
{}

/// The release of the node that was won last.
pub fn node_release_is_next<D: Decider>(_decider: &D)
    ensures { (z : Terms D) → NodeReleaseIsNext D.verdict z }
{}

/// A try to claim a slotted cell, which is a body, or by tickets a node: won or refused.
pub fn claim_is_next<D: Decider>(_decider: &D)
    ensures { (way : CommitWay) (z : Terms D) → ClaimIsNext D.verdict z way }
{}

/// The release of the slotted cell that was won last.
pub fn release_is_next<D: Decider>(_decider: &D)
    ensures { (way : CommitWay) (z : Terms D) → ReleaseIsNext D.verdict z way }
{}

/// A look at the journal's length, for the mark of a turn that was refused or changes nothing.
pub fn look_is_next<D: Decider>(_decider: &D)
    ensures { (way : CommitWay) (z : Terms D) → LookIsNext D.verdict z way }
{}

/// A try to take the journal, which is got or is found taken.
pub fn take_is_next<D: Decider>(_decider: &D)
    ensures { (z : Terms D) → TakeIsNext D.verdict z }
{}

/// The commit of a caller that has the journal.
pub fn commit_is_next<D: Decider>(_decider: &D)
    ensures { (z : Terms D) → CommitIsNext D.verdict z }
{}

/// The commit of a caller that draws its place.
pub fn draw_is_next<D: Decider>(_decider: &D)
    ensures { (z : Terms D) → DrawIsNext D.verdict z }
{}
