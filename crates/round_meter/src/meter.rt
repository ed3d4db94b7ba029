ghost use Rattle.std.specs.Prelude.{◌≡◌, ◌+◌, [], ◌<◌, ◌^◌, length, IfOk, OnOk, IfErr};
ghost use Rattle.amoebot_state.specs.Steps.{plain_entry};
ghost use Rattle.serial_model.specs.{Forms.{full_entry}, Replays.{IsNoStep}};
ghost use Rattle.round_meter.specs.Meters.{GoesOnWith, GoesOnIn, IsFed, IsMetered, StandsForRun, waiting_of};

use crate::progress::Progress;
use amoebot_state::{Decider, Entry, Found, NoMemory, PlainEntry, World};
use serial_model::{Differs, EntryForm};
use std::alloc::Global;
use std::marker::Model;

/// A run that is fed entry by entry, with its rounds.
/// It is seen as its decider and what it keeps: the world that was reached,
/// how each amoebot stands, how many entries were fed, and how many rounds have ended.
#[derive(Drop)]
pub struct Meter<'d, D: Decider> {
    decider: &'d D,
    progress: Progress,
    /// Room for what amoebots are shown, if the world has one.
    found: Option<Found>,
}

impl<'d, D: Decider> Model for Meter<'d, D> {
    ghost use Rattle.round_meter.specs.Meters.{MeterOf, StandsForRun};

    ghost Value = { MeterOf D };

    ghost view = { λ m. record { decider = m.decider.now; state = m.progress } };

    ghost invariant = { λ m. StandsForRun (D.verdict m.decider.now) m.progress };
}

impl<'d, D: Decider> Meter<'d, D> {
    /// A meter at the start of a run, before any entry. The start is dropped with NoMemory.
    pub fn make(alloc: Global, decider: &'d D, start: World) -> Result<Meter<'d, D>, NoMemory>
        ensures decider { IfOk result (λ m. m.decider ≡ decider.now) }
        ensures metered { IfOk result (λ m. IsMetered (D.verdict decider.now) start [] m.state) }
    {
        let found = room_in(&start);
        let progress = Progress::make(alloc, decider, start)?;
        Ok(Meter {
            decider,
            progress,
            found,
        })
    }

    /// What a meter keeps: it stands for some run of the decider.
    pub fn keeps(&self)
        ensures { StandsForRun (D.verdict self.now.decider) self.now.state }
    {
        let _progress = &self.progress;
    }

    /// Goes on by an entry of one of the world's amoebots.
    /// Differs tells that it is no step from the world that was reached,
    /// with the number of entries fed; the meter is unchanged then.
    /// It takes no memory.
    pub fn feed(&mut self, entry: &Entry) -> Result<(), Differs>
        requires there { entry.now.bot < length self.old.state.world.bots }
        requires few { self.old.state.fed + 1 < 2 ^ 32 }
        ensures { IsFed (GoesOnWith (D.verdict self.old.decider) entry.now)
            (λ world. IsNoStep full_entry (D.verdict self.old.decider) world entry.now)
            self.old self.new result }
    {
        self.feed_in(entry)
    }

    /// The same by an entry without old values: by the entry that it tells.
    pub fn follow(&mut self, plain: &PlainEntry) -> Result<(), Differs>
        requires there { plain.now.bot < length self.old.state.world.bots }
        requires few { self.old.state.fed + 1 < 2 ^ 32 }
        ensures { IsFed (GoesOnIn plain_entry (D.verdict self.old.decider) plain.now)
            (λ world. IsNoStep plain_entry (D.verdict self.old.decider) world plain.now)
            self.old self.new result }
    {
        self.feed_in(plain)
    }

    /// The same by an entry in a form.
    pub fn feed_in<E: EntryForm>(&mut self, told: &E) -> Result<(), Differs>
        requires there { E.bot told.now < length self.old.state.world.bots }
        requires few { self.old.state.fed + 1 < 2 ^ 32 }
        ensures goes_on { OnOk result (
            GoesOnIn E.form (D.verdict self.old.decider) told.now self.old.state self.new.state) }
        ensures fed { OnOk result (self.new.state.fed ≡ self.old.state.fed + 1) }
        ensures size { length self.new.state.world.bots ≡ length self.old.state.world.bots }
        ensures differs { IfErr result (λ e. (e.place ≡ self.old.state.fed)
            × IsNoStep E.form (D.verdict self.old.decider) self.old.state.world told.now
            × (self.new ≡ self.old)) }
        ensures decider { self.new.decider ≡ self.old.decider }
    {
        match &mut self.found {
            Some(found) => {
                self.progress.show(told.bot(), found);
                self.progress.feed(self.decider, told, found)
            }
            None => {
                let mut found = self.progress.found(told.bot());
                self.progress.feed(self.decider, told, &mut found)
            }
        }
    }

    /// How many rounds have ended.
    pub fn rounds(&self) -> u32
        ensures { result ≡ self.now.state.rounds }
    {
        self.progress.rounds()
    }

    /// How many amoebots are not settled in the last round that was started.
    pub fn waiting(&self) -> u32
        ensures { result ≡ waiting_of self.now.state }
    {
        self.progress.waiting()
    }

    /// The world that was reached.
    pub fn world(&self) -> &World
        ensures { result.now ≡ self.now.state.world }
    {
        self.progress.world()
    }
}

/// Room for what an amoebot of the world is shown, if it has one.
fn room_in(world: &World) -> Option<Found> {
    if world.bots() > 0 {
        Some(world.found(0))
    } else {
        None
    }
}
