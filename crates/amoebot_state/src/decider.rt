ghost use Rattle.std.specs.Prelude.{◌≡◌};
ghost use Rattle.amoebot_state.specs.Zones.{Shown};
ghost use Rattle.amoebot_state.specs.Steps.{IsLawful, TouchesZone, HasPatchedWorld, ListsDifferences};
ghost use Rattle.amoebot_state.specs.{Steps.{OldValuesAreFound}, declared.verdict.Verdict.{Verdict}};

use crate::found::Found;
use crate::verdict::Verdict;

/// What decides on what an amoebot is shown, and on nothing else.
pub trait Decider: Sync {
    /// The decision on a closed neighbourhood.
    ghost verdict: { Self → Shown → Verdict };

    fn decide(&self, found: &Found) -> Verdict
        ensures { result ≡ verdict self.now found.now };

    /// A patch touches cells of the zone alone; each valid configuration that shows what was found
    /// has one that the patch leads to; a patch is in its order,
    /// and holds only cells whose value differs; its old values are those found.
    ghost is_lawful: { (decider : Self) → IsLawful (verdict decider) };
}

/// The first law of a decider, for a caller that needs it:
/// its patches touch cells of the zone alone.
pub fn touches_zone<D: Decider>(_decider: &D)
    ensures { TouchesZone (D.verdict _decider.now) }
{}

/// The second law: each valid configuration that shows what was found
/// has one that the patch leads to.
pub fn has_next<D: Decider>(_decider: &D)
    ensures { HasPatchedWorld (D.verdict _decider.now) }
{}

/// The third law: its patches are in their order, and hold only cells whose value differs.
pub fn is_exact<D: Decider>(_decider: &D)
    ensures { ListsDifferences (D.verdict _decider.now) }
{}

/// The fourth law: the old values of its patches are those found.
pub fn old_values_are_found<D: Decider>(_decider: &D)
    ensures { OldValuesAreFound (D.verdict _decider.now) }
{}
