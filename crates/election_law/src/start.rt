//! Whether a world is a start of erosion.

ghost use Rattle.std.specs.Prelude.{◌≡◌, ◌⊎◌, length, OnOk, IfErr, Some, None};
ghost use Rattle.election_law.specs.Elections.{IsReadyStart};
ghost use Rattle.election_law.specs.Starts.{AreBotsReady, AreReadyBelow, IsFirstUnready, bot_unready};
ghost use Rattle.election_law.specs.declared.refusal.ElectRefusal.TheVariants as refusal;

use crate::leader::LEADER;
use crate::refusal::ElectRefusal;
use amoebot_state::{Bot, World};
use shape_checks::is_connected;
use std::alloc::Global;

/// The number of the variable `cand`.
const CAND: usize = 0;

/// Whether the world is a ready start: else its first refusal, or that there was not enough memory.
pub(crate) fn check_start(alloc: Global, world: &World) -> Result<(), ElectRefusal>
    ensures ready { OnOk result (IsReadyStart world.now) }
    ensures refused { IfErr result (λ e.
        IsFirstUnready world.now e ⊎ ((e ≡ refusal.NoMemory) × AreBotsReady world.now)) }
{
    world.keeps();
    if world.bots() == 0 {
        return Err(ElectRefusal::Empty);
    }
    check_bots(world)?;
    if !is_connected(alloc, world)? {
        return Err(ElectRefusal::NotConnected);
    }
    Ok(())
}

/// Whether each amoebot is ready: else the refusal of the first that is not.
fn check_bots(world: &World) -> Result<(), ElectRefusal>
    ensures ready { OnOk result (AreReadyBelow world.now (length world.now.bots)) }
    ensures refused { IfErr result (IsFirstUnready world.now) }
{
    for id in 0..world.bots() {
        check_bot(id, world.bot(id))?;
    }
    Ok(())
}

/// Whether an amoebot is ready: else what it is refused for.
fn check_bot(id: u16, bot: &Bot) -> Result<(), ElectRefusal>
    ensures ready { OnOk result (bot_unready id bot.now ≡ None) }
    ensures refused { IfErr result (λ e. bot_unready id bot.now ≡ Some e) }
{
    if !bot.is_contracted() {
        return Err(ElectRefusal::NotContracted(id));
    }
    if bot.mem[CAND] == 1 && bot.mem[LEADER] == 0 {
        return Ok(());
    }
    Err(ElectRefusal::NotReady(id))
}
