ghost use Rattle.std.specs.Prelude.{◌≡◌, ◌<◌, length};
ghost use Rattle.claim_rule.specs.Tokens.{doing};

use crate::activation::Activation;
use crate::manner::{ByJournal, Manner};
use crate::release::Freeing;
use amoebot_state::Decider;
use std::marker::Model;

/// A caller that has committed, and still holds the whole zone, with the values after the commit.
/// Its turn has its mark.
#[derive(Drop)]
pub struct Settled<D: Decider, W: Manner = ByJournal> {
    pub(crate) activation: Activation<D, W>,
}

impl<D: Decider, W: Manner> Model for Settled<D, W> {
    ghost use Rattle.std.specs.Prelude.{◌<◌, length};
    ghost use Rattle.claim_rule.specs.Tokens.{Token, IsFreeing, KeepsActivation, token_in, cells_in};

    ghost Value = { Token D };

    ghost view = { λ s. token_in s.activation };

    ghost invariant = { λ s. KeepsActivation D.verdict W.way s.activation
        × IsFreeing D.verdict s.activation.seat.me s.activation.room.value.turn
        (cells_in s.activation) s.activation.room.value.after
        × (0 < length (cells_in s.activation)) };
}

/// The cells are to be freed. There is one at least, the own body.
pub fn unsettle<D: Decider, W: Manner>(settled: Settled<D, W>) -> Freeing<D, W>
    ensures same { result ≡ settled }
    ensures some { 0 < length (doing settled).held }
{
    let Settled { activation } = settled;
    Freeing { activation }
}
