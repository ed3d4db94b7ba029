ghost use Rattle.std.specs.Prelude.{◌≡◌};
ghost use Rattle.round_meter.specs.Meters.{waits_in};

/// How an amoebot stands in the rounds of a run: whether it is enabled, and in which round,
/// counted from 1, it was last settled by an entry of its own or because it was
/// not enabled before it was asked again.
#[derive(Clone, Copy, Debug, Drop)]
pub(crate) struct Standing {
    pub(crate) enabled: bool,
    pub(crate) settled_in: u32,
}

impl Standing {
    /// Whether the amoebot is enabled, and was not settled in this round.
    pub(crate) fn waits(&self, round: u32) -> bool
        ensures { result ≡ waits_in round self.now }
    {
        self.enabled && self.settled_in != round
    }
}
