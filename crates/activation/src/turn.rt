ghost use Rattle.std.specs.Prelude.{◌≡◌, ◌<◌};
ghost use Rattle.claim_rule.specs.{Plays.{about, bot_in}, Tokens.{IsOf, doing}};
ghost use Rattle.node_claims.specs.Answers.{HasAnswered};

use crate::gate::Gate;
use amoebot_state::{Decider, Verdict};
use claim_rule::{Field, Seat};
use commit_journal::commit;
use node_claims::{Turn, place, release, release_settled, try_claim};
use std::sync::Wait;

/// The caller's next turn, whole: it claims the zone of its amoebot, calls the gate,
/// decides on what it found, commits a change, and frees what it holds.
/// Its body waits for other callers in the commit alone, and no clause says so.
pub fn activate<R: Wait, D: Decider, G: Gate>(
    rt: &R,
    field: &Field<'_, D>,
    seat: Seat<D>,
    gate: &G,
    turn: u32,
    bot: u16,
) -> (Seat<D>, Turn)
    requires field { IsOf field.now seat }
    requires turn { (turn ≡ (doing seat).turn) × (turn < (about D.verdict seat.view).lists.turns) }
    requires bot { bot ≡ bot_in D.verdict seat.view }
    ensures answer { HasAnswered D.verdict seat result.0 result.1 }
    ensures field { IsOf field.now result.0 }
{
    let caller = seat.caller();
    let mut claimed = match try_claim(seat, field, turn, bot) {
        Ok(claimed) => claimed,
        Err((seat, refused)) => return (seat, Turn::Busy(refused)),
    };
    gate.claimed(caller, turn);
    match field.decider().decide(claimed.found()) {
        Verdict::Change(change) => {
            let (settled, receipt) = commit(rt, field, claimed, change);
            (release_settled(settled, field), Turn::Done(receipt))
        }
        Verdict::Idle => {
            let seen = place(&mut claimed, field);
            (release(claimed, field), Turn::Idle(seen))
        }
        Verdict::Failed(failure) => {
            let seen = place(&mut claimed, field);
            (release(claimed, field), Turn::Failed(failure, seen))
        }
    }
}
