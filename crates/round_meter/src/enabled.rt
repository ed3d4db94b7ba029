ghost use Rattle.std.specs.Prelude.{◌≡◌};
ghost use Rattle.round_meter.specs.Rounds.{is_change};

use amoebot_state::{Decider, Found, Verdict};

/// Whether an amoebot that is shown this is enabled.
pub(crate) fn is_enabled<D: Decider>(decider: &D, found: &Found) -> bool
    ensures { result ≡ is_change (D.verdict decider.now found.now) }
{
    match decider.decide(found) {
        Verdict::Change(_) => true,
        Verdict::Idle | Verdict::Failed(_) => false,
    }
}
