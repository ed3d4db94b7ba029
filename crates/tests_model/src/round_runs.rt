//! Runs of small worlds that are made from numbers: after each entry the meter has
//! the numbers of the slow count.
ghost use Rattle.std.specs.Prelude.{◌≡◌, ◌≤◌, ◌<◌, IfOk};
ghost use Rattle.std.specs.List.{All};
ghost use Rattle.tri_lattice.specs.Lattice.{IsNear};
ghost use Rattle.amoebot_state.specs.Refusals.{IsBotInRange};

use crate::crowds::add;
use crate::round_programs::{MARK, OUT, PASS, SHOVE, runner_of};
use crate::rounds::{Reference, take_turn};
use amoebot_state::{Bot, Chir, Decider, World};
use rand_core::SeedableRng;
use rand_core::utils::NextWord;
use rand_pcg::Pcg32;
use round_meter::Meter;
use shipped_programs::{EROSION, LINE};
use small_worlds::{node, standing};
use std::alloc::Global;
use std::process::Abort;
use std::test::Fail;
use tri_lattice::{Area, Node};

/// How many runs there are of a program.
const RUNS: u64 = 36;

/// A number below another one.
fn draw(generator: &mut Pcg32, below: u32) -> u32
    requires { 1 ≤ below }
    ensures { result < below }
{
    generator.next_word() % below
}

fn draw_node(generator: &mut Pcg32, w: u32, h: u32) -> Node
    requires w { 1 ≤ w }
    requires h { 1 ≤ h }
    ensures { IsNear result }
{
    let x = draw(generator, w);
    let y = draw(generator, h);
    node((x % 256) as u8, (y % 256) as u8)
}

/// A contracted amoebot, whose first two variables are at most these.
fn draw_bot(generator: &mut Pcg32, place: Node, maxes: [u8; 8]) -> Bot
    requires { IsNear place }
    ensures { IsBotInRange result }
{
    let chir = if draw(generator, 2) == 0 {
        Chir::Plus
    } else {
        Chir::Minus
    };
    let first = draw(generator, 1 + u32::from(maxes[0]));
    let second = draw(generator, 1 + u32::from(maxes[1]));
    Bot {
        head: place,
        tail: place,
        rot: draw(generator, 6) as u8,
        chir,
        mem: [(first % 256) as u8, (second % 256) as u8, 0, 0, 0, 0, 0, 0],
    }
}

/// At least one amoebot, and at most eight, on nodes below these coordinates.
fn draw_bots(
    alloc: Global,
    generator: &mut Pcg32,
    size: (u32, u32),
    maxes: [u8; 8],
) -> Result<Vec<Bot>, Fail>
    requires w { 1 ≤ size.0 }
    requires h { 1 ≤ size.1 }
    ensures { IfOk result (λ bots. All IsBotInRange bots.items) }
{
    let mut bots: Vec<Bot> = Vec::new(alloc);
    let count = 1 + draw(generator, 8);
    for _ in 0..count {
        let place = draw_node(generator, size.0, size.1);
        if !is_taken(bots.as_slice(), place) {
            add(&mut bots, draw_bot(generator, place, maxes))?;
        }
    }
    Ok(bots)
}

fn is_taken(bots: &[Bot], place: Node) -> bool {
    bots.iter().any(|bot| bot.head == place)
}

/// At most two walls where there is no amoebot.
fn draw_walls(
    alloc: Global,
    generator: &mut Pcg32,
    size: (u32, u32),
    bots: &[Bot],
) -> Result<Vec<Node>, Fail>
    requires w { 1 ≤ size.0 }
    requires h { 1 ≤ size.1 }
{
    let mut walls: Vec<Node> = Vec::new(alloc);
    let count = draw(generator, 3);
    for _ in 0..count {
        let place = draw_node(generator, size.0, size.1);
        if !is_taken(bots, place) && !walls.contains(&place) {
            walls.push(place)?;
        }
    }
    Ok(walls)
}

/// A world of up to eight amoebots and two walls in an area of 3 by 3 to 5 by 4 nodes.
fn draw_world(alloc: Global, generator: &mut Pcg32, maxes: [u8; 8]) -> Result<World, Fail> {
    let size = (3 + draw(generator, 3), 3 + draw(generator, 2));
    let bots = draw_bots(alloc, generator, size, maxes)?;
    let walls = draw_walls(alloc, generator, size, bots.as_slice())?;
    if bots.len() > 4096 || walls.len() > 4096 {
        Err("a large world")?;
    }
    let area = Area::new(0, 0, size.0 as u16, size.1 as u16).ok_or("an area")?;
    Ok(World::walled(alloc, area, walls.as_slice(), maxes, bots.as_slice())?)
}

/// Up to 40 turns of amoebots that are drawn.
/// After each entry the meter agrees.
/// How many entries there were.
fn take_turns<R: Abort, D: Decider>(
    rt: &R,
    alloc: Global,
    decider: &D,
    generator: &mut Pcg32,
    meter: &mut Meter<'_, D>,
    reference: &mut Reference,
) -> Result<u64, Fail>
    requires { meter.old.state.fed ≡ 0 }
    ensures { IfOk result (λ entries. entries ≤ 40) }
{
    let mut entries = 0;
    for _ in 0..40_u32 {
        let bots = reference.world().bots();
        if bots == 0 {
            Err("no amoebot")?;
        }
        let bot = draw(generator, u32::from(bots)) as u16;
        if take_turn(rt, alloc, decider, meter, reference, bot)? {
            entries += 1;
        }
    }
    Ok(entries)
}

/// Such a run from a world that is drawn.
fn check_run<R: Abort, D: Decider>(
    rt: &R,
    alloc: Global,
    decider: &D,
    generator: &mut Pcg32,
    maxes: [u8; 8],
) -> Result<u64, Fail>
    ensures { IfOk result (λ entries. entries ≤ 40) }
{
    let start = draw_world(alloc, generator, maxes)?;
    let mut reference = Reference::new(alloc, decider, start.copy(alloc)?)?;
    let mut meter = Meter::make(alloc, decider, start)?;
    reference.check(rt, &meter);
    take_turns(rt, alloc, decider, generator, &mut meter, &mut reference)
}

/// Thirty-six such runs of a program from as many worlds. How many entries there were.
fn check_program<R: Abort>(rt: &R, alloc: Global, text: &str) -> Result<u64, Fail>
    ensures { IfOk result (λ entries. entries ≤ 1440) }
{
    let runner = runner_of(alloc, text)?;
    let maxes = runner.checked().maxes();
    let mut entries = 0;
    for seed in 0..RUNS {
        let mut generator = Pcg32::seed_from_u64(seed);
        entries += check_run(rt, alloc, &runner, &mut generator, maxes)?;
    }
    Ok(entries)
}

/// With programs of one action and of several, and with movements of one amoebot and of two.
#[test]
fn the_meter_counts_as_the_definition_does(rt: HostRuntime) -> Result<(), Fail> {
    let mut entries = 0;
    for text in [OUT, MARK, PASS, SHOVE, LINE, EROSION] {
        let more = check_program(&rt, rt.alloc(), text)?;
        assert!(rt; more >= 10, "{more} of {text}");
        entries += more;
    }
    assert!(rt; entries >= 500, "{entries}");
    Ok(())
}
