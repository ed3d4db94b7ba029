ghost use Rattle.std.specs.Prelude.{◌≡◌, ◌≢◌, ◌<◌, length, Decides, IfNone, IfSome, IfOk, IfErr};
ghost use Rattle.std.specs.{Bool.{OnTrue, OnFalse}, List.{All}};
ghost use Rattle.amoebot_state.specs.{Zones.{shown}, Steps.{Run, Step, change_of, plain_entry}};
ghost use Rattle.serial_model.specs.Forms.{full_entry};
ghost use Rattle.serial_model.specs.Replays.{AreCountable, IsNoStep, IsFirstNoStep, RunIn, StepIn};

use crate::forms::EntryForm;
use crate::laws::full_is_itself;
use amoebot_state::{Change, Decider, Entry, Found, PlainEntry, Verdict, World, has_next};

/// The entries are no run: the one at `place`, counted from 0, is the first that is no step.
#[derive(Clone, Copy, Debug, Drop, PartialEq, Eq)]
pub struct Differs {
    pub place: u32,
}

/// Whether the entries, whose amoebots are the world's, are a run of the model from the start:
/// Ok gives the world that they lead to.
/// Differs gives the first place that is no step; the start is dropped then.
/// It takes no memory.
pub fn replay<D: Decider>(decider: &D, start: World, entries: &[Entry]) -> Result<World, Differs>
    requires there { All (λ e. e.bot < length start.bots) entries.now }
    requires few { AreCountable entries.now }
    ensures run { IfOk result (λ world. Run (D.verdict decider.now) start entries.now world) }
    ensures differs { IfErr result (λ e.
        IsFirstNoStep full_entry (D.verdict decider.now) start entries.now e.place) }
{
    full_is_itself();
    replay_in(decider, start, entries)
}

/// The same of entries without their old values: whether they are those of a run.
pub fn replay_plain<D: Decider>(
    decider: &D,
    start: World,
    entries: &[PlainEntry],
) -> Result<World, Differs>
    requires there { All (λ p. p.bot < length start.bots) entries.now }
    requires few { AreCountable entries.now }
    ensures run { IfOk result (λ world. RunIn plain_entry (D.verdict decider.now) start entries.now world) }
    ensures differs { IfErr result (λ e.
        IsFirstNoStep plain_entry (D.verdict decider.now) start entries.now e.place) }
{
    replay_in(decider, start, entries)
}

/// The same of entries in a form.
pub fn replay_in<D: Decider, E: EntryForm>(
    decider: &D,
    start: World,
    entries: &[E],
) -> Result<World, Differs>
    requires there { All (λ e. E.bot e < length start.bots) entries.now }
    requires few { AreCountable entries.now }
    ensures run { IfOk result (λ world. RunIn E.form (D.verdict decider.now) start entries.now world) }
    ensures differs { IfErr result (λ e.
        IsFirstNoStep E.form (D.verdict decider.now) start entries.now e.place) }
{
    if entries.is_empty() {
        return Ok(start);
    }
    let mut found = start.found(entries[0].bot());
    let mut world = start;
    for (place, told) in entries.iter().enumerate() {
        world.show(told.bot(), &mut found);
        if !makes_step(decider, &mut world, told, &found) {
            return Err(Differs {
                place: place as u32,
            });
        }
    }
    Ok(world)
}

/// Makes the step of an entry, if there is one. Where there is none, the world stays.
pub fn make_step<D: Decider>(decider: &D, world: &mut World, entry: &Entry) -> bool
    requires { entry.now.bot < length world.old.bots }
    ensures step { OnTrue result (Step (D.verdict decider.now) world.old entry.now world.new) }
    ensures none { OnFalse result (IsNoStep full_entry (D.verdict decider.now) world.old entry.now) }
    ensures stays { OnFalse result (world.new ≡ world.old) }
    ensures size { length world.new.bots ≡ length world.old.bots }
{
    full_is_itself();
    make_step_in(decider, world, entry)
}

/// The same of an entry in a form.
pub fn make_step_in<D: Decider, E: EntryForm>(decider: &D, world: &mut World, told: &E) -> bool
    requires { E.bot told.now < length world.old.bots }
    ensures step { OnTrue result (StepIn E.form (D.verdict decider.now) world.old told.now world.new) }
    ensures none { OnFalse result (IsNoStep E.form (D.verdict decider.now) world.old told.now) }
    ensures stays { OnFalse result (world.new ≡ world.old) }
    ensures size { length world.new.bots ≡ length world.old.bots }
{
    let found = world.found(told.bot());
    makes_step(decider, world, told, &found)
}

/// The same, where this is what the entry's amoebot is shown.
fn makes_step<D: Decider, E: EntryForm>(
    decider: &D,
    world: &mut World,
    told: &E,
    found: &Found,
) -> bool
    requires there { E.bot told.now < length world.old.bots }
    requires found { found.now ≡ shown world.old (E.bot told.now) }
    ensures step { OnTrue result (StepIn E.form (D.verdict decider.now) world.old told.now world.new) }
    ensures none { OnFalse result (IsNoStep E.form (D.verdict decider.now) world.old told.now) }
    ensures stays { OnFalse result (world.new ≡ world.old) }
    ensures size { length world.new.bots ≡ length world.old.bots }
{
    has_next(decider);
    world.keeps();
    let verdict = decider.decide(found);
    match &verdict {
        Verdict::Change(change) if told.tells(change) => {
            world.apply(&change.patch);
            true
        }
        Verdict::Change(_) | Verdict::Idle | Verdict::Failed(_) => false,
    }
}

/// Makes the step of an entry in a form, if there is one, where this is what its amoebot is shown:
/// the change that was decided.
#[inline(always)]
pub(crate) fn make_step_on<D: Decider, E: EntryForm>(
    decider: &D,
    world: &mut World,
    told: &E,
    found: &Found,
) -> Option<Change>
    requires there { E.bot told.now < length world.old.bots }
    requires found { found.now ≡ shown world.old (E.bot told.now) }
    ensures told { IfSome result (λ change. E.form (E.entry told.now change) ≡ told.now) }
    ensures step { IfSome result (λ change.
        Step (D.verdict decider.now) world.old (E.entry told.now change) world.new) }
    ensures none { IfNone result (IsNoStep E.form (D.verdict decider.now) world.old told.now) }
    ensures stays { IfNone result (world.new ≡ world.old) }
    ensures size { length world.new.bots ≡ length world.old.bots }
{
    has_next(decider);
    world.keeps();
    let change = told_on(decider, found, told)?;
    world.apply(&change.patch);
    Some(change)
}

/// Whether the decision on the entry's amoebot, which is one of the world's,
/// is the change that the entry tells.
pub fn decides_entry<D: Decider>(decider: &D, world: &World, entry: &Entry) -> bool
    requires { entry.now.bot < length world.now.bots }
    ensures { Decides result
        (D.verdict decider.now (shown world.now entry.now.bot) ≡ Verdict.Change (change_of entry.now)) }
{
    told_on(decider, &world.found(entry.bot), entry).is_some()
}

/// The change that is decided on what was found, if it is told.
#[inline(always)]
pub fn told_on<D: Decider, E: EntryForm>(decider: &D, found: &Found, told: &E) -> Option<Change>
    ensures decided { IfSome result (λ change. D.verdict decider.now found.now ≡ Verdict.Change change) }
    ensures told { IfSome result (λ change. E.form (E.entry told.now change) ≡ told.now) }
    ensures none { IfNone result ((change : Change) → E.form (E.entry told.now change) ≡ told.now
        → D.verdict decider.now found.now ≢ Verdict.Change change) }
{
    match decider.decide(found) {
        Verdict::Change(change) => {
            if told.tells(&change) {
                Some(change)
            } else {
                None
            }
        }
        Verdict::Idle | Verdict::Failed(_) => None,
    }
}
