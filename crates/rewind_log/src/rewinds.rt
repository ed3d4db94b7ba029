ghost use Rattle.std.specs.{Prelude.{◌≡◌, ◌<◌, ◌≤◌, length, IfOk, IfErr, Ok, Err}, Bool.{OnTrue, OnFalse}};
ghost use Rattle.std.specs.List.{All};
ghost use Rattle.serial_model.specs.Replays.{AreCountable};
ghost use Rattle.rewind_log.specs.Rewinds.{IsStepBack, IsNoStepBack, IsBack, IsLastNoStep};
ghost use Rattle.rewind_log.specs.Unwinding.{IsUnwound};

use amoebot_state::{Decider, Entry, World, old_values_are_found};
use serial_model::{Differs, decides_entry};

/// Goes back over an entry, whose amoebot is one of the world's.
/// True exactly where some valid world has a step of the entry to this one;
/// the world is then that one.
/// False leaves it.
/// It takes no memory.
pub fn back<D: Decider>(decider: &D, world: &mut World, entry: &Entry) -> bool
    requires { entry.now.bot < length world.old.bots }
    ensures step { OnTrue result (IsStepBack (D.verdict decider.now) world.old entry.now world.new) }
    ensures none { OnFalse result (IsNoStepBack (D.verdict decider.now) world.old entry.now) }
    ensures stays { OnFalse result (world.new ≡ world.old) }
    ensures size { length world.new.bots ≡ length world.old.bots }
{
    old_values_are_found(decider);
    if !world.holds(&entry.patch) {
        return false;
    }
    let before = entry.patch.reversed();
    if !world.can_apply(&before) {
        return false;
    }
    world.keeps();
    world.apply(&before);
    if decides_entry(decider, world, entry) {
        return true;
    }
    world.apply(&entry.patch);
    false
}

/// The world at a place of the entries, whose amoebots are the world's, seen from the last world.
/// Differs gives the greatest place, not below that one, from which there is no step;
/// the world is dropped then.
/// It takes no memory.
pub fn rewind<D: Decider>(
    decider: &D,
    last: World,
    entries: &[Entry],
    place: u32,
) -> Result<World, Differs>
    requires few { AreCountable entries.now }
    requires within { place ≤ length entries.now }
    requires known { All (λ e. e.bot < length last.bots) entries.now }
    ensures back { IfOk result (λ world. IsBack (D.verdict decider.now) last entries.now place world) }
    ensures differs { IfErr result (λ e.
        IsLastNoStep (D.verdict decider.now) last entries.now place e.place) }
{
    last.keeps();
    let mut world = last;
    let mut at = entries.len() as u32;
    while place < at {
        at -= 1;
        if !back(decider, &mut world, &entries[at as usize]) {
            return Err(Differs { place: at });
        }
    }
    Ok(world)
}

/// The same where the entries' amoebots are those of a first world:
/// Differs gives the number of entries where the last world has another area,
/// other walls or another number of amoebots than the first one.
pub fn unwind<D: Decider>(
    decider: &D,
    start: &World,
    last: World,
    entries: &[Entry],
    place: u32,
) -> Result<World, Differs>
    requires few { AreCountable entries.now }
    requires within { place ≤ length entries.now }
    requires known { All (λ e. e.bot < length start.now.bots) entries.now }
    ensures back { IfOk result (λ world.
        IsUnwound (D.verdict decider.now) start.now last entries.now place (Ok world)) }
    ensures differs { IfErr result (λ e.
        IsUnwound (D.verdict decider.now) start.now last entries.now place (Err e.place)) }
{
    if !last.has_area_and_walls_of(start) || last.bots() != start.bots() {
        return Err(Differs {
            place: entries.len() as u32,
        });
    }
    rewind(decider, last, entries, place)
}
