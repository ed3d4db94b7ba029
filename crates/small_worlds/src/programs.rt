//! Programs of one action or none.

use amoebot_state::{Cell, CellName, Change, Decider, Failure, Found, Moved, Patch, Port, Verdict};
use model_ops::Site;

/// The program of one action, whose guard is that variable 0 is 0, and which sets it to 1.
pub struct Marker;

impl Decider for Marker {
    ghost use Rattle.small_worlds.specs.Marking.{marking, marking_is_lawful};

    ghost verdict = { λ _. marking };

    fn decide(&self, found: &Found) -> Verdict {
        let own = *found.own();
        if own.mem[0] == 0 && 1 <= found.maxes()[0] {
            let mut marked = own;
            marked.mem[0] = 1;
            let mut patch = Patch::new();
            patch.push(
                CellName::Body(found.bot()),
                Cell::Body(own),
                Cell::Body(marked),
            );
            return Verdict::Change(Change {
                action: 0,
                moved: Moved::None,
                patch,
            });
        }
        Verdict::Idle
    }

    ghost is_lawful = { λ _. marking_is_lawful };
}

/// The program of one action, whose guard is that the amoebot is contracted,
/// and which expands it through a port.
pub struct Expander {
    pub port: Port,
}

impl Decider for Expander {
    ghost use Rattle.model_ops.specs.Expansion.{expansion_verdict_shown};
    ghost use Rattle.model_ops.proofs.ExpansionLaws.{expansion_is_lawful};

    ghost verdict = { λ d. expansion_verdict_shown d.port };

    fn decide(&self, found: &Found) -> Verdict {
        if !found.own().is_contracted() {
            return Verdict::Idle;
        }
        let mut site = Site::new(found);
        match site.expand(self.port) {
            Ok(()) => Verdict::Change(Change {
                action: 0,
                moved: Moved::Expand(self.port),
                patch: site.patch(),
            }),
            Err(failure) => Verdict::Failed(failure),
        }
    }

    ghost is_lawful = { λ d. expansion_is_lawful d.port };
}

/// The program without actions.
pub struct Idler;

impl Decider for Idler {
    ghost use Rattle.small_worlds.specs.Resting.{idle, idle_rests, resting_is_lawful};

    ghost verdict = { λ _. idle };

    ghost is_lawful = { λ _. resting_is_lawful idle idle_rests };

    fn decide(&self, _found: &Found) -> Verdict {
        Verdict::Idle
    }
}

/// The program of one action, which always runs against the edge.
pub struct AtEdge;

impl Decider for AtEdge {
    ghost use Rattle.small_worlds.specs.Resting.{at_the_edge, edge_rests, resting_is_lawful};

    ghost verdict = { λ _. at_the_edge };

    ghost is_lawful = { λ _. resting_is_lawful at_the_edge edge_rests };

    fn decide(&self, _found: &Found) -> Verdict {
        Verdict::Failed(Failure::Edge)
    }
}
