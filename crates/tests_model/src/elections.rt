//! An election that is led along a run: which actions are steps, and how many candidates are left.
ghost use Rattle.std.specs.Prelude.{◌≡◌, ◌+◌, ◌<◌, ◌≤◌, ◌^◌, IfOk};
ghost use Rattle.std.specs.List.{All};
ghost use Rattle.amoebot_state.specs.Refusals.{IsBotInRange};
ghost use Rattle.action_check.specs.Maxes.{maxes_of};
ghost use Rattle.election_law.specs.Elections.{IsErosion};

use action_eval::Runner;
use amoebot_state::{Bot, Cell, CellName, Chir, Entry, Moved, Patch, World};
use election_law::{Election, is_erosion};
use shipped_programs::Shipped;
use small_worlds::standing;
use std::alloc::Global;
use std::test::Fail;
use tri_lattice::Area;

/// The number of the action `lead`.
pub const LEAD: u8 = 0;

/// The number of the action `erode`.
pub const ERODE: u8 = 1;

/// A contracted candidate: its node, its rotation and its chirality.
type Place = (u8, u8, u8, Chir);

/// An amoebot and an action of it; whether that is a step, and how many candidates there are then.
type Ask = (u16, u8, bool, u32);

/// A run: where the amoebots stand, what they are asked for in turn, and who leads at the end.
pub struct Run {
    pub places: &'static [Place],
    pub asks: &'static [Ask],
    pub leader: Option<u16>,
}

/// The first ask whose answer is another one than the run's, or their number,
/// where the leader is another one.
pub fn first_difference(alloc: Global, run: &Run) -> Result<Option<usize>, Fail> {
    if run.asks.len() > 1000 {
        Err("a long run")?;
    }
    let mut election = election_of(alloc, run.places)?;
    for (number, (bot, action, is_step, left)) in run.asks.iter().enumerate() {
        let made = take_step(&mut election, *bot, *action);
        if made != *is_step || election.candidates() != *left {
            return Ok(Some(number));
        }
    }
    if election.leader() == run.leader {
        Ok(None)
    } else {
        Ok(Some(run.asks.len()))
    }
}

/// Makes the step in which an amoebot does an action, where it is one.
fn take_step(election: &mut Election, bot: u16, action: u8) -> bool
    requires { election.old.steps < 2 ^ 31 }
    ensures { election.new.steps ≤ election.old.steps + 1 }
{
    if bot >= election.world().bots() {
        return false;
    }
    let entry = entry_of(bot, election.world().bot(bot), action);
    election.step(&entry).is_ok()
}

/// The entry in which an amoebot does an action: `lead` puts 1 into its variable 1,
/// and `erode` puts 0 into its variable 0.
fn entry_of(bot: u16, before: &Bot, action: u8) -> Entry
    ensures { result.bot ≡ bot }
{
    let mut after = *before;
    if action == LEAD {
        after.mem[1] = 1;
    } else {
        after.mem[0] = 0;
    }
    let mut patch = Patch::new();
    patch.push(CellName::Body(bot), Cell::Body(*before), Cell::Body(after));
    Entry {
        caller: 0,
        turn: 0,
        bot,
        action,
        moved: Moved::None,
        patch,
    }
}

/// The election of candidates at these places.
fn election_of(alloc: Global, places: &[Place]) -> Result<Election, Fail>
    ensures { IfOk result (λ election. election.steps ≡ 0) }
{
    let runner = erosion(alloc)?;
    let start = start_of(alloc, &runner, places)?;
    Ok(Election::open(alloc, runner, start)?)
}

/// The decider of `erosion`.
fn erosion(alloc: Global) -> Result<Runner, Fail>
    ensures { IfOk result (λ runner. IsErosion runner) }
{
    let runner = Runner::new(Shipped::Erosion.program(alloc)?);
    if is_erosion(runner.checked().program()) {
        Ok(runner)
    } else {
        Err(Fail::from("another program"))
    }
}

/// The world of candidates at these places, with the maxima of the program.
fn start_of(alloc: Global, runner: &Runner, places: &[Place]) -> Result<World, Fail>
    ensures { IfOk result (λ world. world.maxes ≡ maxes_of runner.now) }
{
    let bots = candidates(alloc, places)?;
    if bots.len() > 4096 {
        Err("many amoebots")?;
    }
    let area = Area::new(0, 0, 14, 8).ok_or("an area")?;
    Ok(World::new(alloc, area, runner.checked().maxes(), bots.as_slice())?)
}

/// Candidates at these places.
fn candidates(alloc: Global, places: &[Place]) -> Result<Vec<Bot>, Fail>
    ensures { IfOk result (λ bots. All IsBotInRange bots.items) }
{
    let mut bots = Vec::new(alloc);
    for place in places {
        bots.push(candidate(*place))?;
    }
    Ok(bots)
}

fn candidate(place: Place) -> Bot
    ensures { IsBotInRange result }
{
    Bot {
        rot: place.2 % 6,
        chir: place.3,
        ..standing(place.0, place.1, 1)
    }
}
