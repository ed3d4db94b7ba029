ghost use Rattle.std.specs.Prelude.{◌≡◌, ◌<◌, ◌≤◌, None, length};
ghost use Rattle.claim_core.specs.{Limits.{most_turns}, Machine.{phase_of_verdict}};
ghost use Rattle.claim_rule.specs.Plays.{about, marked_at};
ghost use Rattle.claim_rule.specs.Tokens.{IsOf, IsToLook, IsMarked, number_in, doing, goes, next_in};
ghost use Rattle.claim_rule.specs.Tokens.{found_in, verdict_in, placed_turn};

use crate::activation::Activation;
use crate::field::Field;
use crate::held::Held;
use crate::manner::{ByJournal, Manner};
use crate::placed::Seen;
use crate::release::Freeing;
use amoebot_state::{Decider, Found};
use std::marker::Model;

/// A caller that holds the whole zone of its turn's amoebot.
/// Its turn has no mark until it was looked at.
#[derive(Drop)]
pub struct Claimed<D: Decider, W: Manner = ByJournal> {
    pub(crate) activation: Activation<D, W>,
}

impl<D: Decider, W: Manner> Model for Claimed<D, W> {
    ghost use Rattle.claim_rule.specs.Tokens.{Token, KeepsActivation, KeepsFound, token_in};

    ghost Value = { Token D };

    ghost view = { λ c. token_in c.activation };

    ghost invariant = { λ c. KeepsActivation D.verdict W.way c.activation
        × KeepsFound D.verdict c.activation.seat.me c.activation.room.value };
}

impl<D: Decider, W: Manner> Claimed<D, W> {
    /// What was found in the zone.
    pub fn found(&self) -> &Found
        ensures { result.now ≡ found_in D.verdict self.now }
    {
        match &self.activation.room.found {
            Some(found) => found,
            None => unreachable!(),
        }
    }
}

/// The whole zone is held, and what was found in it is what the decider is shown.
pub fn seal<D: Decider, W: Manner>(held: Held<D, W>) -> Claimed<D, W>
    requires whole { next_in D.verdict held ≡ None }
    ensures same { result ≡ held }
    ensures decided { (doing held).phase ≡ phase_of_verdict (verdict_in D.verdict held) }
{
    let Held { mut activation } = held;
    activation.room.seal();
    Claimed { activation }
}

/// The turn of a claim that decides Idle or Failed gets its mark: it reads the journal's length.
pub fn look<D: Decider, W: Manner>(claimed: &mut Claimed<D, W>, field: &Field<'_, D, W>) -> Seen<W>
    requires field { IsOf field.now claimed.old }
    requires looks { IsToLook claimed.old }
    ensures marked { claimed.new ≡ goes claimed.old
        (marked_at (about D.verdict claimed.old.view) (doing claimed.old) result.place) }
    ensures frees { IsMarked claimed.new }
    ensures told { result ≡ placed_turn (number_in claimed.old) (doing claimed.old).turn result.place }
    ensures few { result.place ≤ most_turns }
{
    let activation = &mut claimed.activation;
    let place = field.place(&mut activation.seat);
    let room = &mut *activation.room;
    room.after = place;
    Seen::new(room.caller, room.turn, place)
}

/// The turn has its mark, and its cells are to be freed. There is one at least, the own body.
pub fn unseal<D: Decider, W: Manner>(claimed: Claimed<D, W>) -> Freeing<D, W>
    requires looked { IsMarked claimed }
    ensures same { result ≡ claimed }
    ensures some { 0 < length (doing claimed).held }
{
    let Claimed { activation } = claimed;
    Freeing { activation }
}
