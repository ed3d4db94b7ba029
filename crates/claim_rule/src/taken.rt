ghost use Rattle.std.specs.Prelude.{◌≡◌, ◌<◌, IfOk, IfErr};
ghost use Rattle.amoebot_state.specs.Steps.{change_of};
ghost use Rattle.amoebot_state.specs.declared.verdict.Change.{Change as ChangeValue};
ghost use Rattle.claim_core.specs.declared.state.Phase.TheVariants.{Committing};
ghost use Rattle.claim_rule.specs.{Tokens.{IsOf, doing}, Commits.{IsTakenElsewhere}};
ghost use Rattle.claim_rule.specs.Settling.{HasGot, HasStored, IsToTake};

use crate::activation::Activation;
use crate::claimed::Claimed;
use crate::field::Field;
use crate::placed::Receipt;
use crate::settled::Settled;
use amoebot_state::{Change, Decider, Entry};
use std::marker::Model;

/// A caller that holds the whole zone of its turn's amoebot, and the journal,
/// and commits its change next.
#[derive(Drop)]
pub struct Taken<D: Decider> {
    activation: Activation<D>,
    entry: Entry,
}

impl<D: Decider> Model for Taken<D> {
    ghost use Rattle.claim_rule.specs.Tokens.{Token, frame_of, token_in, cells_in, notes_in};
    ghost use Rattle.claim_rule.specs.Settling.{IsTaken, IsReadyEntry};
    ghost use Rattle.amoebot_state.specs.Steps.{change_of};

    ghost Value = { Token D };

    ghost view = { λ t. token_in t.activation };

    ghost invariant = { λ t.
        IsTaken D.verdict t.activation.seat.me t.activation.room.value.caller t.activation.room.value.turn
        t.activation.room.value.bot t.activation.room.value.stale
        (frame_of t.activation.room.value.area t.activation.room.value.maxes) (cells_in t.activation)
        (notes_in t.activation) (change_of t.entry) × IsReadyEntry t.activation.room.value t.entry };
}

/// One try to take the journal, for the change that was decided on what the claim found.
/// The claim and the change come back as they were where this step
/// found that another caller has it.
#[tactic(auto, using(crate::proofs::Takings::taken_of, crate::proofs::Takings::left_of))]
pub fn take<D: Decider>(
    claimed: Claimed<D>,
    field: &Field<'_, D>,
    change: Change,
) -> Result<Taken<D>, (Claimed<D>, Change)>
    requires field { IsOf field.now claimed }
    requires change { IsToTake claimed change }
    ensures got { IfOk result (λ taken. HasGot claimed taken change) }
    ensures busy { IfErr result (λ back.
        (back.0 ≡ claimed) × (back.1 ≡ change) × IsTakenElsewhere D.verdict claimed.view) }
{
    let Claimed { mut activation } = claimed;
    let entry = activation.room.ready(change);
    let word = field.take_journal(&mut activation.seat);
    if word % 2 != 0 {
        return Err((Claimed { activation }, change_of(entry)));
    }
    Ok(Taken { activation, entry })
}

/// The change of an entry.
fn change_of(entry: Entry) -> Change
    ensures { result ≡ change_of entry }
{
    Change {
        action: entry.action,
        moved: entry.moved,
        patch: entry.patch,
    }
}

/// The commit, one step: the entry joins the journal, which is free again,
/// and the cells that are held have the values of the patch.
pub fn store<D: Decider>(taken: Taken<D>, field: &Field<'_, D>) -> (Settled<D>, Receipt)
    requires field { IsOf field.now taken }
    ensures { (change : ChangeValue) × ((doing taken).phase ≡ Committing change)
        × HasStored D.verdict taken result.0 change result.1 }
{
    let Taken {
        mut activation,
        entry,
    } = taken;
    let place = field.push_entry(&mut activation.seat, entry);
    field.store_length(&mut activation.seat, u64::from(place) + 1);
    let room = &mut *activation.room;
    room.settle();
    room.after = place + 1;
    let receipt = Receipt::new(room.caller, room.turn, place);
    (Settled { activation }, receipt)
}
