ghost use Rattle.std.specs.Prelude.{◌≡◌};
ghost use Rattle.election_law.specs.declared.refusal.ElectRefusal.TheVariants as refusal;

use amoebot_state::NoMemory;

/// Why there is no election. The ids are those of the amoebots at fault.
#[derive(Clone, Copy, Debug, Drop, PartialEq, Eq)]
pub enum ElectRefusal {
    /// There is no amoebot.
    Empty,
    /// It is expanded.
    NotContracted(u16),
    /// Its `cand` is not 1, or its `leader` is not 0.
    NotReady(u16),
    /// The occupied nodes are not connected.
    NotConnected,
    /// There was not enough memory.
    NoMemory,
}

impl From<NoMemory> for ElectRefusal {
    ghost from_gives = { λ _ e. e ≡ refusal.NoMemory };

    fn from(_error: NoMemory) -> ElectRefusal {
        ElectRefusal::NoMemory
    }
}
