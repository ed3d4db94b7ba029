ghost use Rattle.std.specs.Prelude.{◌≡◌, ◌≤◌, ◌<◌, IfOk, IfErr};
ghost use Rattle.claim_core.specs.Limits.{most_turns};
ghost use Rattle.claim_rule.specs.Plays.{about, bot_in, marked_at};
ghost use Rattle.claim_rule.specs.Tokens.{IsOf, IsToLook, IsMarked, number_in, doing, goes, placed_turn};
ghost use Rattle.node_claims.specs.Claims.{IsClaimed, WasRefused, at_next, freed_all};

use amoebot_state::Decider;
use claim_rule::{
    Claimed, Field, Freeing, Manner, Refused, Seat, Seen, Settled, begin, end, free_last, look,
    refuse, seal, unseal, unsettle, win,
};

/// Claims the zone of the caller's next turn, cell by cell in zone order.
/// It stops at the first cell that another caller holds, and then frees what it has won;
/// the turn has its mark.
pub fn try_claim<D: Decider, W: Manner>(
    seat: Seat<D, W>,
    field: &Field<'_, D, W>,
    turn: u32,
    bot: u16,
) -> Result<Claimed<D, W>, (Seat<D, W>, Refused<W>)>
    requires field { IsOf field.now seat }
    requires turn { (turn ≡ (doing seat).turn) × (turn < (about D.verdict seat.view).lists.turns) }
    requires bot { bot ≡ bot_in D.verdict seat.view }
    ensures claimed { IfOk result (λ claimed. IsClaimed D.verdict seat claimed) }
    ensures refused { IfErr result (λ by. WasRefused D.verdict seat by.0 by.1) }
{
    let mut held = begin(seat, turn, bot);
    while let Some(cell) = held.next(field) {
        match win(held, field, cell) {
            Ok(more) => held = more,
            Err((stopped, tag)) => {
                let (freeing, refused) = refuse(stopped, field, cell, tag);
                return Err((free_all(freeing, field), refused));
            }
        }
    }
    Ok(seal(held))
}

/// Marks the turn of a claim whose verdict is Idle or Failed,
/// at the length that the journal has while the zone is held.
pub fn place<D: Decider, W: Manner>(claimed: &mut Claimed<D, W>, field: &Field<'_, D, W>) -> Seen<W>
    requires field { IsOf field.now claimed.old }
    requires looks { IsToLook claimed.old }
    ensures marked { claimed.new ≡ goes claimed.old
        (marked_at (about D.verdict claimed.old.view) (doing claimed.old) result.place) }
    ensures frees { IsMarked claimed.new }
    ensures told { result ≡ placed_turn (number_in claimed.old) (doing claimed.old).turn result.place }
    ensures few { result.place ≤ most_turns }
{
    look(claimed, field)
}

/// Frees the zone of a turn that has its mark, the cell that was won last first.
/// The values stay as they were found.
pub fn release<D: Decider, W: Manner>(claimed: Claimed<D, W>, field: &Field<'_, D, W>) -> Seat<D, W>
    requires field { IsOf field.now claimed }
    requires looked { IsMarked claimed }
    ensures { result ≡ goes claimed
        (at_next (about D.verdict claimed.view) (doing claimed).turn (doing claimed).marks) }
{
    free_all(unseal(claimed), field)
}

/// Frees the zone of a turn that has committed, the cell that was won last first.
/// The values stay as they were committed.
pub fn release_settled<D: Decider, W: Manner>(
    settled: Settled<D, W>,
    field: &Field<'_, D, W>,
) -> Seat<D, W>
    requires { IsOf field.now settled }
    ensures { result ≡ goes settled
        (at_next (about D.verdict settled.view) (doing settled).turn (doing settled).marks) }
{
    free_all(unsettle(settled), field)
}

/// Frees all cells that are held.
fn free_all<D: Decider, W: Manner>(freeing: Freeing<D, W>, field: &Field<'_, D, W>) -> Seat<D, W>
    requires { IsOf field.now freeing }
    ensures { result ≡ freed_all D.verdict freeing }
{
    let mut freeing = freeing;
    while freeing.count() > 0 {
        freeing = free_last(freeing, field);
    }
    end(freeing)
}
