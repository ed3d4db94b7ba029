//! How far a run has come, with its rounds.
ghost use Rattle.std.specs.{Prelude.{◌≡◌, ◌+◌, [], ◌<◌, ◌^◌, length, IfOk, OnOk, IfErr}, List.{All}};
ghost use Rattle.amoebot_state.specs.Zones.{shown};
ghost use Rattle.serial_model.specs.Replays.{IsNoStep};
ghost use Rattle.round_meter.specs.Meters.{GoesOnIn, IsMetered, StandsForRun, waiting_of};
ghost use Rattle.round_meter.specs.Asking.{IsDecidedWith, IsEntered, asked_each, first_tallied};
ghost use Rattle.round_meter.specs.Tallies.{with_standings};

use crate::enabled::is_enabled;
use crate::near::ids_near;
use crate::tally::Tally;
use amoebot_state::{Decider, Found, NoMemory, Patch, World, has_next, touches_zone};
use serial_model::{Differs, EntryForm, told_on};
use std::alloc::Global;
use std::marker::Model;

/// The world that a run has reached, how each amoebot stands, and how many entries were fed.
#[derive(Drop)]
pub(crate) struct Progress {
    world: World,
    tally: Tally,
    fed: u32,
}

impl Model for Progress {
    ghost use Rattle.round_meter.specs.{Meters.{Metered}, Tallies.{metered, IsInStep}};

    ghost Value = { Metered };

    ghost view = { λ p. metered p.world p.tally p.fed };

    ghost invariant = { λ p. IsInStep p.world p.tally p.fed };
}

impl Progress {
    /// The start of a run, before any entry. The start is dropped with NoMemory.
    pub(crate) fn make<D: Decider>(
        alloc: Global,
        decider: &D,
        start: World,
    ) -> Result<Progress, NoMemory>
        ensures { IfOk result (λ p. IsMetered (D.verdict decider.now) start [] p) }
    {
        start.keeps();
        let tally = first_tally(alloc, decider, &start)?;
        Ok(Progress {
            world: start,
            tally,
            fed: 0,
        })
    }

    /// Goes on with an entry in a form, whose amoebot is shown this.
    /// What others are shown takes its place.
    pub(crate) fn feed<D: Decider, E: EntryForm>(
        &mut self,
        decider: &D,
        told: &E,
        found: &mut Found,
    ) -> Result<(), Differs>
        requires there { E.bot told.now < length self.old.world.bots }
        requires few { self.old.fed + 1 < 2 ^ 32 }
        requires shown { found.old ≡ shown self.old.world (E.bot told.now) }
        requires stands { StandsForRun (D.verdict decider.now) self.old }
        ensures goes_on { OnOk result (GoesOnIn E.form (D.verdict decider.now) told.now self.old self.new) }
        ensures stands { StandsForRun (D.verdict decider.now) self.new }
        ensures fed { OnOk result (self.new.fed ≡ self.old.fed + 1) }
        ensures size { length self.new.world.bots ≡ length self.old.world.bots }
        ensures differs { IfErr result (λ e. (e.place ≡ self.old.fed)
            × IsNoStep E.form (D.verdict decider.now) self.old.world told.now
            × (self.new ≡ self.old)) }
    {
        let Some(change) = told_on(decider, found, told) else {
            return Err(Differs { place: self.fed });
        };
        self.enter(decider, told.bot(), &change.patch, found);
        Ok(())
    }

    /// Goes on by the patch that is decided for an amoebot.
    /// `found` is room for what amoebots are shown.
    fn enter<D: Decider>(&mut self, decider: &D, bot: u16, patch: &Patch, found: &mut Found)
        requires there { bot < length self.old.world.bots }
        requires few { self.old.fed + 1 < 2 ^ 32 }
        requires decided { IsDecidedWith (D.verdict decider.now) self.old.world bot patch.now }
        ensures { IsEntered (D.verdict decider.now) self.old bot patch.now self.new }
    {
        touches_zone(decider);
        has_next(decider);
        self.world.keeps();
        let near = ids_near(&self.world, patch.triples());
        self.world.apply(patch);
        self.tally.enter(bot);
        ask_each(
            &mut self.tally,
            decider,
            &self.world,
            near.as_slice(),
            found,
        );
        self.tally.end_round();
        self.fed += 1;
    }

    /// What an amoebot is shown.
    pub(crate) fn found(&self, bot: u16) -> Found
        requires { bot < length self.now.world.bots }
        ensures { result ≡ shown self.now.world bot }
    {
        self.world.found(bot)
    }

    /// The same in the place of what was found before.
    pub(crate) fn show(&self, bot: u16, found: &mut Found)
        requires { bot < length self.now.world.bots }
        ensures { found.new ≡ shown self.now.world bot }
    {
        self.world.show(bot, found);
    }

    /// How many rounds have ended.
    pub(crate) fn rounds(&self) -> u32
        ensures { result ≡ self.now.rounds }
    {
        self.tally.rounds()
    }

    /// How many amoebots are not settled in the last round that was started.
    pub(crate) fn waiting(&self) -> u32
        ensures { result ≡ waiting_of self.now }
    {
        self.tally.waiting()
    }

    /// The world that was reached.
    pub(crate) fn world(&self) -> &World
        ensures { result.now ≡ self.now.world }
    {
        &self.world
    }
}

/// How the amoebots of a world stand at the start of a run.
fn first_tally<D: Decider>(alloc: Global, decider: &D, world: &World) -> Result<Tally, NoMemory>
    ensures { IfOk result (λ t. t ≡ first_tallied (D.verdict decider.now) world.now) }
{
    let mut tally = Tally::new(alloc);
    if world.bots() == 0 {
        return Ok(tally);
    }
    let mut found = world.found(0);
    for bot in 0..world.bots() {
        world.show(bot, &mut found);
        tally.push(is_enabled(decider, &found))?;
    }
    Ok(tally)
}

/// Asks these amoebots of the world again.
/// What each is shown takes the place of what was found before.
fn ask_each<D: Decider>(
    tally: &mut Tally,
    decider: &D,
    world: &World,
    ids: &[u16],
    found: &mut Found,
)
    requires there { All (λ i. i < length world.now.bots) ids.now }
    requires size { length tally.old.standings ≡ length world.now.bots }
    requires few { tally.old.rounds + 1 < 2 ^ 32 }
    ensures { tally.new ≡ with_standings tally.old
        (asked_each (D.verdict decider.now) world.now (tally.old.rounds + 1) tally.old.standings ids.now) }
{
    for id in ids {
        world.show(*id, found);
        tally.note(*id, is_enabled(decider, found));
    }
}
