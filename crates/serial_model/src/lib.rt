//! The model's runs, one activation at a time.
#![tactic(auto)]

ghost use Rattle.std.specs.Prelude.{◌≡◌, ◌<◌, length, IfNone, IfSome};
ghost use Rattle.amoebot_state.specs.{SerialTurns.{SerialTurn}, Steps.{Step, plain_entry}, Zones.{shown}};
ghost use Rattle.serial_model.specs.Replays.{IsNoStep};

mod forms;
mod laws;
mod replays;

pub use amoebot_state::{Turned, serial_turn_is_unique};
use amoebot_state::{Change, Decider, Entry, Found, PlainEntry, Verdict, World, has_next};
pub use forms::EntryForm;
use forms::entry_by;
pub use laws::{
    first_no_step_is_unique, full_is_itself, no_step_is_another_verdict, plain_run_is_unique,
    plain_step_is_unique, run_has_only_steps, run_is_steps, run_or_first_no_step,
};
use replays::make_step_on;
pub use replays::{
    Differs, decides_entry, make_step, make_step_in, replay, replay_in, replay_plain, told_on,
};
use std::marker::Model;

/// A world that is changed one activation at a time.
#[derive(Drop)]
pub struct Serial {
    world: World,
    /// Room for what amoebots are shown, if the world has one.
    found: Option<Found>,
}

impl Model for Serial {
    ghost use Rattle.amoebot_state.specs.Configs.{Config};

    ghost Value = { Config };

    ghost view = { λ s. s.world };
}

impl Serial {
    /// Begins at this world, before any turn.
    pub fn new(world: World) -> Serial
        ensures { result ≡ world }
    {
        let found = if world.bots() > 0 {
            Some(world.found(0))
        } else {
            None
        };
        Serial { world, found }
    }

    /// One turn of a caller on an amoebot, which is one of the world's:
    /// what the amoebot is shown is decided on, and a change is made.
    /// Where it is none, the world stays.
    pub fn activate<D: Decider>(&mut self, decider: &D, caller: u8, turn: u32, bot: u16) -> Turned
        requires { bot < length self.old.bots }
        ensures turns { SerialTurn (D.verdict decider.now) caller turn bot self.old result self.new }
        ensures size { length self.new.bots ≡ length self.old.bots }
    {
        let found = self.world.found(bot);
        has_next(decider);
        match decider.decide(&found) {
            Verdict::Idle => Turned::Idle,
            Verdict::Failed(failure) => Turned::Failed(failure),
            Verdict::Change(change) => {
                self.world.apply(&change.patch);
                Turned::Done(entry_by(caller, turn, bot, change))
            }
        }
    }

    /// One turn whose entry is this one, apart from the old values of its patch,
    /// and whose amoebot is one of the world's.
    /// It answers the whole entry, if there is such a turn. Where there is none, the world stays.
    pub fn follow<D: Decider>(&mut self, decider: &D, plain: &PlainEntry) -> Option<Entry>
        requires { plain.now.bot < length self.old.bots }
        ensures told { IfSome result (λ e. plain_entry e ≡ plain.now) }
        ensures step { IfSome result (λ e. Step (D.verdict decider.now) self.old e self.new) }
        ensures none { IfNone result (IsNoStep plain_entry (D.verdict decider.now) self.old plain.now) }
        ensures stays { IfNone result (self.new ≡ self.old) }
        ensures size { length self.new.bots ≡ length self.old.bots }
    {
        self.follow_in(decider, plain)
    }

    /// The same of an entry in a form.
    pub fn follow_in<D: Decider, E: EntryForm>(&mut self, decider: &D, told: &E) -> Option<Entry>
        requires { E.bot told.now < length self.old.bots }
        ensures told { IfSome result (λ e. E.form e ≡ told.now) }
        ensures step { IfSome result (λ e. Step (D.verdict decider.now) self.old e self.new) }
        ensures none { IfNone result (IsNoStep E.form (D.verdict decider.now) self.old told.now) }
        ensures stays { IfNone result (self.new ≡ self.old) }
        ensures size { length self.new.bots ≡ length self.old.bots }
    {
        let change = self.make_step(decider, told)?;
        Some(told.entry(change))
    }

    /// Makes the step of an entry in a form, if there is one: the change that was decided.
    fn make_step<D: Decider, E: EntryForm>(&mut self, decider: &D, told: &E) -> Option<Change>
        requires { E.bot told.now < length self.old.bots }
        ensures told { IfSome result (λ change. E.form (E.entry told.now change) ≡ told.now) }
        ensures step { IfSome result (λ change.
            Step (D.verdict decider.now) self.old (E.entry told.now change) self.new) }
        ensures none { IfNone result (IsNoStep E.form (D.verdict decider.now) self.old told.now) }
        ensures stays { IfNone result (self.new ≡ self.old) }
        ensures size { length self.new.bots ≡ length self.old.bots }
    {
        match &mut self.found {
            Some(found) => {
                self.world.show(told.bot(), found);
                make_step_on(decider, &mut self.world, told, found)
            }
            None => {
                let found = self.world.found(told.bot());
                make_step_on(decider, &mut self.world, told, &found)
            }
        }
    }

    /// The world that was reached.
    pub fn world(&self) -> &World
        ensures { result.now ≡ self.now }
    {
        &self.world
    }

    /// The world that was reached, once no turn is to follow.
    pub fn into_world(self) -> World
        ensures { result ≡ self }
    {
        let Serial { world, .. } = self;
        world
    }
}
