ghost use Rattle.std.specs.Prelude.{◌≡◌, IfOk, IfErr};
ghost use Rattle.claim_rule.specs.{Tokens.{IsOf}, Commits.{IsTakenElsewhere}, Settling.{HasStored, IsToTake}};

use amoebot_state::{Change, Decider};
use claim_rule::{Claimed, Field, Receipt, Settled, store, take};
use std::sync::Wait;
use std::thread;

/// How many looks in a row may find the journal taken before the next try.
const LOOKS: usize = 64;

/// One try to commit the change that was decided on what the claim found: the journal is taken,
/// and free again with the entry.
/// The claim and the change come back as they were where another caller has the journal
/// in a sound state of the machine.
pub fn try_commit<D: Decider>(
    field: &Field<'_, D>,
    claimed: Claimed<D>,
    change: Change,
) -> Result<(Settled<D>, Receipt), (Claimed<D>, Change)>
    requires field { IsOf field.now claimed }
    requires change { IsToTake claimed change }
    ensures done { IfOk result (λ done. HasStored D.verdict claimed done.0 change done.1) }
    ensures busy { IfErr result (λ back.
        (back.0 ≡ claimed) × (back.1 ≡ change) × IsTakenElsewhere D.verdict claimed.view) }
{
    match take(claimed, field, change) {
        Ok(taken) => Ok(store(taken, field)),
        Err(back) => Err(back),
    }
}

/// Commits the change that was decided on what the claim found:
/// it tries until it has stored the entry.
/// Before each try it gives way while the journal looks taken.
/// Its body waits while another caller has the journal, which is for two steps,
/// and no clause says so.
pub fn commit<R: Wait, D: Decider>(
    rt: &R,
    field: &Field<'_, D>,
    claimed: Claimed<D>,
    change: Change,
) -> (Settled<D>, Receipt)
    requires field { IsOf field.now claimed }
    requires change { IsToTake claimed change }
    ensures { HasStored D.verdict claimed result.0 change result.1 }
{
    let mut claimed = claimed;
    let mut change = change;
    for _ in rt.forever() {
        give_way(field);
        match try_commit(field, claimed, change) {
            Ok(done) => return done,
            Err((same_claim, same_change)) => {
                claimed = same_claim;
                change = same_change;
                thread::yield_now();
            }
        }
    }
    unreachable!()
}

/// Gives way to other threads while the journal looks taken.
/// Looks leave the word with the processor that has the journal, which tries would not.
/// Nothing is promised of a look, so their number is bounded, and a try follows whatever they saw.
fn give_way<D: Decider>(field: &Field<'_, D>) {
    for _ in 0..LOOKS {
        if !field.is_journal_taken() {
            return;
        }
        thread::yield_now();
    }
}
