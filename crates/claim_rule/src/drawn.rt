ghost use Rattle.std.specs.Prelude.{◌≡◌};
ghost use Rattle.claim_rule.specs.{Tokens.{IsOf}, Settling.{HasStored, IsToTake}};

use crate::claimed::Claimed;
use crate::field::Field;
use crate::manner::ByTicket;
use crate::placed::Receipt;
use crate::settled::Settled;
use amoebot_state::{Change, Decider};

/// The commit of the change that was decided on what the claim found, one step: it draws its place,
/// and the cells that are held have the values of the patch.
/// The caller keeps the turn's entry, with the place in the receipt.
pub fn draw<D: Decider>(
    claimed: Claimed<D, ByTicket>,
    field: &Field<'_, D, ByTicket>,
    change: &Change,
) -> (Settled<D, ByTicket>, Receipt<ByTicket>)
    requires field { IsOf field.now claimed }
    requires change { IsToTake claimed change.now }
    ensures drawn { HasStored D.verdict claimed result.0 change.now result.1 }
{
    let Claimed { mut activation } = claimed;
    activation.room.keep_changes(&change.patch);
    let place = field.draw_place(&mut activation.seat) as u32;
    let room = &mut *activation.room;
    room.settle();
    room.after = place + 1;
    let receipt = Receipt::new(room.caller, room.turn, place);
    (Settled { activation }, receipt)
}
