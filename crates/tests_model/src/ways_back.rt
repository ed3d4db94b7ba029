//! Journals of shipped programs: from the last world back to each place,
//! where the world is the one that `Serial` has there.
ghost use Rattle.std.specs.Prelude.{IfOk};
ghost use Rattle.std.specs.List.{All};
ghost use Rattle.amoebot_state.specs.Refusals.{IsBotInRange};

use action_eval::Runner;
use amoebot_state::{Bot, Entry, World};
use rewind_log::rewind;
use serial_model::{Serial, Turned};
use shipped_programs::Shipped;
use small_worlds::standing;
use std::alloc::Global;
use std::test::Fail;
use tri_lattice::Area;

/// A contracted amoebot: its node, and its first three variables, which `hexagon` calls `state`,
/// `parent` and `aim`.
type Place = (u8, u8, u8, u8, u8);

/// The first is the seed.
static SEEDED: [Place; 23] = [
    (4, 4, 1, 6, 0),
    (5, 4, 0, 6, 6),
    (6, 4, 0, 6, 6),
    (7, 4, 0, 6, 6),
    (8, 4, 0, 6, 6),
    (4, 5, 0, 6, 6),
    (5, 5, 0, 6, 6),
    (6, 5, 0, 6, 6),
    (7, 5, 0, 6, 6),
    (8, 5, 0, 6, 6),
    (4, 6, 0, 6, 6),
    (5, 6, 0, 6, 6),
    (6, 6, 0, 6, 6),
    (7, 6, 0, 6, 6),
    (8, 6, 0, 6, 6),
    (4, 7, 0, 6, 6),
    (5, 7, 0, 6, 6),
    (6, 7, 0, 6, 6),
    (7, 7, 0, 6, 6),
    (8, 7, 0, 6, 6),
    (4, 8, 0, 6, 6),
    (5, 8, 0, 6, 6),
    (6, 8, 0, 6, 6),
];

/// No two are beside each other.
static SCATTERED: [Place; 9] = [
    (0, 0, 0, 0, 0),
    (2, 0, 0, 0, 0),
    (4, 0, 0, 0, 0),
    (0, 2, 0, 0, 0),
    (2, 2, 0, 0, 0),
    (4, 2, 0, 0, 0),
    (0, 4, 0, 0, 0),
    (2, 4, 0, 0, 0),
    (4, 4, 0, 0, 0),
];

/// The amoebots at these places.
fn bots_at(alloc: Global, places: &[Place]) -> Result<Vec<Bot>, Fail>
    ensures { IfOk result (λ bots. All IsBotInRange bots.items) }
{
    let mut bots = Vec::new(alloc);
    for place in places {
        bots.push(bot_at(*place))?;
    }
    Ok(bots)
}

fn bot_at(place: Place) -> Bot
    ensures { IsBotInRange result }
{
    Bot {
        mem: [place.2, place.3, place.4, 0, 0, 0, 0, 0],
        ..standing(place.0, place.1, 0)
    }
}

/// A world of amoebots at these places for a program, in an area of this side.
fn world_for(alloc: Global, runner: &Runner, side: u16, places: &[Place]) -> Result<World, Fail> {
    let bots = bots_at(alloc, places)?;
    if bots.len() > 4096 {
        Err("many amoebots")?;
    }
    let area = Area::new(0, 0, side, side).ok_or("an area")?;
    Ok(World::new(alloc, area, runner.checked().maxes(), bots.as_slice())?)
}

/// The entry of an amoebot's turn, if it is a change.
fn turn_of(serial: &mut Serial, runner: &Runner, bot: u16) -> Option<Entry> {
    if bot >= serial.world().bots() {
        return None;
    }
    match serial.activate(runner, 0, 0, bot) {
        Turned::Done(entry) => Some(entry),
        Turned::Idle | Turned::Failed(_) => None,
    }
}

/// So many rounds, in each of which every amoebot has a turn: the entries, and the last world.
fn journal_from(
    alloc: Global,
    runner: &Runner,
    start: World,
    rounds: u32,
) -> Result<(Vec<Entry>, World), Fail> {
    let mut serial = Serial::new(start);
    let mut entries = Vec::new(alloc);
    for _ in 0..rounds {
        for bot in 0..serial.world().bots() {
            if let Some(entry) = turn_of(&mut serial, runner, bot) {
                entries.push(entry)?;
            }
        }
    }
    Ok((entries, serial.into_world()))
}

/// Goes back from the last world to a place of the entries, where the world has to be this one.
fn check_place(
    alloc: Global,
    runner: &Runner,
    last: &World,
    entries: &[Entry],
    place: usize,
    there: &World,
) -> Result<(), Fail> {
    let bots = last.bots();
    if place > entries.len() || entries.len() > 4096 || !entries.iter().all(|e| e.bot < bots) {
        Err("a long journal")?;
    }
    let world = rewind(runner, last.copy(alloc)?, entries, place as u32)?;
    if world.same(there) {
        Ok(())
    } else {
        Err(Fail::from("another world"))
    }
}

/// Goes back to each place of the entries from this start, beside a run of the same turns.
fn check_along(
    alloc: Global,
    runner: &Runner,
    start: World,
    last: &World,
    entries: &[Entry],
) -> Result<(), Fail> {
    let mut serial = Serial::new(start);
    for (place, entry) in entries.iter().enumerate() {
        check_place(alloc, runner, last, entries, place, serial.world())?;
        let _entry = turn_of(&mut serial, runner, entry.bot);
    }
    check_place(alloc, runner, last, entries, entries.len(), serial.world())
}

/// Goes back to each place of the run of so many rounds. How many entries it has.
fn check_run(alloc: Global, runner: &Runner, start: World, rounds: u32) -> Result<usize, Fail> {
    let (entries, last) = journal_from(alloc, runner, start.copy(alloc)?, rounds)?;
    check_along(alloc, runner, start, &last, entries.as_slice())?;
    Ok(entries.len())
}

/// Each of the 22 beside the seed first finds its place in the tree.
#[test]
fn each_place_of_a_hexagon_is_reached(rt: HostRuntime) -> Result<(), Fail> {
    let runner = Runner::new(Shipped::Hexagon.program(rt.alloc())?);
    let start = world_for(rt.alloc(), &runner, 14, &SEEDED)?;
    assert!(rt; check_run(rt.alloc(), &runner, start, 12)? > 22);
    Ok(())
}

/// Nine amoebots go to the border in three rows of three,
/// each by an expansion and a contraction a node: over three, four and five nodes.
#[test]
fn each_place_of_a_line_is_reached(rt: HostRuntime) -> Result<(), Fail> {
    let runner = Runner::new(Shipped::Line.program(rt.alloc())?);
    let start = world_for(rt.alloc(), &runner, 8, &SCATTERED)?;
    assert!(rt; check_run(rt.alloc(), &runner, start, 16)? == 72);
    Ok(())
}
