//! How amoebots stand in the rounds of a run, with counts that are kept.
ghost use Rattle.std.specs.Prelude.{◌≡◌, ◌+◌, ◌<◌, ◌≤◌, ◌^◌, ◌∷◌, ◌++◌, [], length, slice_set, if◌then◌else◌};
ghost use Rattle.std.specs.{Prelude.{OnOk, IfOk}, List.{count_by}};
ghost use Rattle.amoebot_state.specs.Limits.{most_bots};
ghost use Rattle.round_meter.specs.Asking.{fresh_standing, standings_after_entry, standings_after_note};
ghost use Rattle.round_meter.specs.Tallies.{waiting_in, with_round_ended, with_standings};

use crate::standing::Standing;
use amoebot_state::NoMemory;
use std::alloc::Global;
use std::marker::Model;

/// How each amoebot stands, by its id, and how many rounds have ended.
///
/// Beside them it keeps how many amoebots are enabled, and how many of these
/// wait in the round that goes on.
/// An amoebot waits if it is enabled and was not settled in that round.
#[derive(Drop)]
pub(crate) struct Tally {
    standings: Vec<Standing>,
    rounds: u32,
    able: u32,
    waiting: u32,
}

impl Model for Tally {
    ghost use Rattle.round_meter.specs.Tallies.{Tallied, IsTally};

    ghost Value = { Tallied };

    ghost view = { λ t. record { standings = t.standings.items; rounds = t.rounds } };

    ghost invariant = { λ t. IsTally t.standings.items t.rounds t.able t.waiting };
}

impl Tally {
    /// Nobody, before the first round has ended.
    pub(crate) fn new(alloc: Global) -> Tally
        ensures { result ≡ record { standings = []; rounds = 0 } }
    {
        Tally {
            standings: Vec::new(alloc),
            rounds: 0,
            able: 0,
            waiting: 0,
        }
    }

    /// Adds the next amoebot, which was settled in no round.
    pub(crate) fn push(&mut self, enabled: bool) -> Result<(), NoMemory>
        requires { length self.old.standings < most_bots }
        ensures { OnOk result (
            self.new ≡ with_standings self.old (self.old.standings ++ fresh_standing enabled ∷ [])) }
    {
        let standing = Standing {
            enabled,
            settled_in: 0,
        };
        self.standings.push(standing)?;
        self.able += one_if(enabled);
        self.waiting += one_if(enabled);
        Ok(())
    }

    /// Settles an amoebot by an entry of its own.
    pub(crate) fn enter(&mut self, id: u16)
        requires there { id < length self.old.standings }
        requires few { self.old.rounds + 1 < 2 ^ 32 }
        ensures { self.new ≡ with_standings self.old
            (standings_after_entry (self.old.rounds + 1) self.old.standings id) }
    {
        let before = self.standings[usize::from(id)];
        self.put(
            id,
            Standing {
                enabled: before.enabled,
                settled_in: self.rounds + 1,
            },
        );
    }

    /// Notes whether an amoebot is enabled now. Where it was not before, that settles it.
    pub(crate) fn note(&mut self, id: u16, enabled: bool)
        requires there { id < length self.old.standings }
        requires few { self.old.rounds + 1 < 2 ^ 32 }
        ensures { self.new ≡ with_standings self.old
            (standings_after_note (self.old.rounds + 1) self.old.standings id enabled) }
    {
        let before = self.standings[usize::from(id)];
        let settled_in = if before.enabled {
            before.settled_in
        } else {
            self.rounds + 1
        };
        self.put(
            id,
            Standing {
                enabled,
                settled_in,
            },
        );
    }

    fn put(&mut self, id: u16, standing: Standing)
        requires there { id < length self.old.standings }
        requires few { self.old.rounds + 1 < 2 ^ 32 }
        requires stamped { standing.settled_in ≤ self.old.rounds + 1 }
        ensures { self.new ≡ with_standings self.old (slice_set self.old.standings id standing) }
    {
        let before = self.standings[usize::from(id)];
        let round = self.rounds + 1;
        self.able = self.able - one_if(before.enabled) + one_if(standing.enabled);
        self.waiting = self.waiting - one_if(before.waits(round)) + one_if(standing.waits(round));
        self.standings[usize::from(id)] = standing;
    }

    /// Ends the round, if nobody waits.
    pub(crate) fn end_round(&mut self)
        requires { self.old.rounds + 1 < 2 ^ 32 }
        ensures { self.new ≡ with_round_ended self.old }
    {
        if self.waiting == 0 {
            self.rounds += 1;
            self.waiting = self.able;
        }
    }

    /// How many rounds have ended.
    pub(crate) fn rounds(&self) -> u32
        ensures { result ≡ self.now.rounds }
    {
        self.rounds
    }

    /// How many amoebots wait in the round that goes on.
    pub(crate) fn waiting(&self) -> u32
        ensures { result ≡ waiting_in self.now }
    {
        self.waiting
    }
}

/// 1 for true, 0 for false.
fn one_if(condition: bool) -> u32
    ensures { result ≡ (if condition then 1 else 0) }
{
    u32::from(condition)
}
