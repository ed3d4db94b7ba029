//! An election: a run of `erosion` from a ready start, one entry at a time.

ghost use Rattle.std.specs.Prelude.{◌≡◌, ◌⊎◌, ◌<◌, ◌+◌, ◌^◌, length, IfOk, IfErr, OnOk, OnErr};
ghost use Rattle.amoebot_state.specs.Steps.{Step};
ghost use Rattle.serial_model.specs.{Forms.{full_entry}, Replays.{IsNoStep, StepIn}};
ghost use Rattle.shape_checks.specs.Values.{value_count};
ghost use Rattle.action_check.specs.Maxes.{maxes_of};
ghost use Rattle.action_meaning.specs.Verdicts.{verdict_shown};
ghost use Rattle.election_law.specs.Elections.{IsErosion, IsReadyStart, IsElected, cand_var, leader_of};
ghost use Rattle.election_law.specs.Starts.{AreBotsReady, IsFirstUnready};
ghost use Rattle.election_law.specs.declared.refusal.ElectRefusal.TheVariants as refusal;

use crate::leader::first_leader;
use crate::refusal::ElectRefusal;
use crate::start::check_start;
use action_eval::Runner;
use amoebot_state::{Entry, World};
use serial_model::{Differs, EntryForm, full_is_itself, make_step_in};
use shape_checks::count_value;
use std::alloc::Global;
use std::marker::Model;

/// A run of `erosion` from a ready start, one entry at a time.
/// In each of its worlds at most one amoebot is the leader.
#[derive(Drop)]
pub struct Election {
    runner: Runner,
    world: World,
    steps: u32,
}

impl Model for Election {
    ghost use Rattle.election_law.specs.Elections.{IsErosion};
    ghost use Rattle.election_law.specs.States.{ElectionState, election_code, IsElection};

    ghost Value = { ElectionState };

    ghost coded = { election_code };

    ghost view = { λ e. record { program = e.runner; world = e.world; steps = e.steps } };

    ghost invariant = { λ e. IsErosion e.runner × IsElection e.world };
}

impl Election {
    /// An election that begins at this world, before any step.
    /// The program is `erosion`, and the world has its maxima.
    ///
    /// Otherwise it returns the first that holds of these: `Empty`, there is no amoebot;
    /// for rising ids `NotContracted`, and `NotReady`, its `cand` is not 1
    /// or its `leader` is not 0; `NotConnected`.
    /// `NoMemory` may come once each amoebot is ready.
    /// Program and world are dropped then.
    pub fn open(alloc: Global, runner: Runner, start: World) -> Result<Election, ElectRefusal>
        requires program { IsErosion runner }
        requires maxes { start.maxes ≡ maxes_of runner }
        ensures open { IfOk result (λ e. e ≡ record { program = runner; world = start; steps = 0 }) }
        ensures ready { OnOk result (IsReadyStart start) }
        ensures refused { IfErr result (λ e.
            IsFirstUnready start e ⊎ ((e ≡ refusal.NoMemory) × AreBotsReady start)) }
    {
        start.keeps();
        check_start(alloc, &start)?;
        Ok(Election {
            runner,
            world: start,
            steps: 0,
        })
    }

    /// The decider of the program.
    pub fn runner(&self) -> &Runner
        ensures { result.now ≡ self.now.program }
    {
        &self.runner
    }

    /// Makes the step of an entry, whose amoebot is one of the world's.
    /// `Differs` tells how many steps were made, where the entry is no step from the world;
    /// nothing changes then.
    pub fn step(&mut self, entry: &Entry) -> Result<(), Differs>
        requires there { entry.now.bot < length self.old.world.bots }
        requires few { self.old.steps + 1 < 2 ^ 32 }
        ensures step { OnOk result (
            Step (verdict_shown self.old.program) self.old.world entry.now self.new.world) }
        ensures steps { OnOk result (self.new.steps ≡ self.old.steps + 1) }
        ensures program { self.new.program ≡ self.old.program }
        ensures place { IfErr result (λ e. e.place ≡ self.old.steps) }
        ensures none { OnErr result (
            IsNoStep full_entry (verdict_shown self.old.program) self.old.world entry.now) }
        ensures stays { OnErr result (self.new ≡ self.old) }
        ensures size { length self.new.world.bots ≡ length self.old.world.bots }
    {
        full_is_itself();
        self.step_in(entry)
    }

    /// The same of an entry in a form.
    pub fn step_in<E: EntryForm>(&mut self, told: &E) -> Result<(), Differs>
        requires there { E.bot told.now < length self.old.world.bots }
        requires few { self.old.steps + 1 < 2 ^ 32 }
        ensures step { OnOk result (
            StepIn E.form (verdict_shown self.old.program) self.old.world told.now self.new.world) }
        ensures steps { OnOk result (self.new.steps ≡ self.old.steps + 1) }
        ensures program { self.new.program ≡ self.old.program }
        ensures place { IfErr result (λ e. e.place ≡ self.old.steps) }
        ensures none { OnErr result (
            IsNoStep E.form (verdict_shown self.old.program) self.old.world told.now) }
        ensures stays { OnErr result (self.new ≡ self.old) }
        ensures size { length self.new.world.bots ≡ length self.old.world.bots }
    {
        if !make_step_in(&self.runner, &mut self.world, told) {
            return Err(Differs { place: self.steps });
        }
        self.steps += 1;
        Ok(())
    }

    /// The world that was reached. At most one amoebot of it is the leader.
    pub fn world(&self) -> &World
        ensures same { result.now ≡ self.now.world }
        ensures elected { IsElected self.now.world }
    {
        &self.world
    }

    /// How many amoebots have `cand` 1.
    pub fn candidates(&self) -> u32
        ensures { result ≡ value_count self.now.world cand_var 1 }
    {
        count_value(&self.world, 0, 1)
    }

    /// The amoebot with `leader` 1, if there is one.
    pub fn leader(&self) -> Option<u16>
        ensures { result ≡ leader_of self.now.world }
    {
        first_leader(&self.world)
    }
}
