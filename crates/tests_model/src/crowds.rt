//! How often the meter asks among 1,000 amoebots, by entries with their old
//! values and by entries without them.
ghost use Rattle.std.specs.Prelude.{◌≡◌, ◌≤◌, ◌<◌, ◌+◌, ◌^◌, IfOk, OnOk};
ghost use Rattle.std.specs.List.{All};
ghost use Rattle.amoebot_state.specs.Refusals.{IsBotInRange};

use crate::decision_counts::Counting;
use crate::round_programs::{BACK, DRAG, PASS, runner_of};
use crate::rounds::{feed, follow, numbers};
use amoebot_state::{Bot, Decider};
use round_meter::Meter;
use serial_model::{Serial, Turned};
use small_worlds::{spread, standing, world_in};
use std::alloc::Global;
use std::process::Abort;
use std::test::Fail;

/// A turn of an amoebot.
/// Whether it has an entry, for which each of two meters takes at most so many decisions:
/// the first one is fed with it, and the other one follows it without its old values.
fn take_turn<R: Abort, D: Decider>(
    rt: &R,
    decider: &Counting<D>,
    meter: &mut Meter<'_, Counting<D>>,
    follower: &mut Meter<'_, Counting<D>>,
    serial: &mut Serial,
    bot: u16,
    most: u64,
) -> Result<bool, Fail>
    requires fed { meter.old.state.fed < 2 ^ 31 }
    requires followed { follower.old.state.fed < 2 ^ 31 }
    ensures fed { OnOk result (meter.new.state.fed ≤ meter.old.state.fed + 1) }
    ensures followed { OnOk result (follower.new.state.fed ≤ follower.old.state.fed + 1) }
{
    if bot >= serial.world().bots() {
        Err("no amoebot")?;
    }
    let Turned::Done(entry) = serial.activate(decider, 0, 0, bot) else {
        return Ok(false);
    };
    let _before = decider.taken();
    feed(meter, &entry)?;
    assert!(rt; decider.taken() <= most);
    follow(follower, &entry)?;
    assert!(rt; decider.taken() <= most);
    Ok(true)
}

/// A turn of each of 1,000 amoebots. How many entries there are.
fn take_turns<R: Abort, D: Decider>(
    rt: &R,
    decider: &Counting<D>,
    meter: &mut Meter<'_, Counting<D>>,
    follower: &mut Meter<'_, Counting<D>>,
    serial: &mut Serial,
    most: u64,
) -> Result<u64, Fail>
    requires fed { meter.old.state.fed ≡ 0 }
    requires followed { follower.old.state.fed ≡ 0 }
{
    let mut entries = 0;
    for bot in 0..1000 {
        if take_turn(rt, decider, meter, follower, serial, bot, most)? {
            entries += 1;
        }
    }
    Ok(entries)
}

/// Each start took a decision for each amoebot.
/// Each in turn acts once, if it can, and each entry takes each meter at most so many decisions.
/// There are so many entries.
fn check_turns<R: Abort, D: Decider>(
    rt: &R,
    decider: &Counting<D>,
    meter: &mut Meter<'_, Counting<D>>,
    follower: &mut Meter<'_, Counting<D>>,
    serial: &mut Serial,
    most: u64,
    number: u64,
) -> Result<(), Fail>
    requires fed { meter.old.state.fed ≡ 0 }
    requires followed { follower.old.state.fed ≡ 0 }
{
    assert!(rt; decider.taken() == 2000);
    assert!(rt; take_turns(rt, decider, meter, follower, serial, most)? == number);
    assert!(rt; meter.world().same(serial.world()));
    assert!(rt; follower.world().same(serial.world()));
    assert!(rt; numbers(follower) == numbers(meter));
    Ok(())
}

/// The same in a world of this width and height.
fn check_crowd<R: Abort, D: Decider>(
    rt: &R,
    alloc: Global,
    decider: &Counting<D>,
    size: (u16, u16),
    bots: &[Bot],
    most: u64,
    number: u64,
) -> Result<(), Fail>
    requires { All IsBotInRange bots.now }
{
    if bots.len() > 4096 {
        Err("a large crowd")?;
    }
    let mut serial = Serial::new(world_in(alloc, size.0, size.1, bots)?);
    let mut meter = Meter::make(alloc, decider, world_in(alloc, size.0, size.1, bots)?)?;
    let mut follower = Meter::make(alloc, decider, world_in(alloc, size.0, size.1, bots)?)?;
    check_turns(
        rt,
        decider,
        &mut meter,
        &mut follower,
        &mut serial,
        most,
        number,
    )
}

/// The same of a program's text.
fn check_text<R: Abort>(
    rt: &R,
    alloc: Global,
    text: &str,
    size: (u16, u16),
    bots: &[Bot],
    most: u64,
    number: u64,
) -> Result<(), Fail>
    requires { All IsBotInRange bots.now }
{
    let decider = Counting::new(runner_of(alloc, text)?);
    check_crowd(rt, alloc, &decider, size, bots, most, number)
}

/// Adds an amoebot.
pub fn add(bots: &mut Vec<Bot>, bot: Bot) -> Result<(), Fail>
    requires others { All IsBotInRange bots.old.items }
    requires bot { IsBotInRange bot }
    ensures { OnOk result (All IsBotInRange bots.new.items) }
{
    bots.push(bot)?;
    Ok(())
}

/// Amoebots in 25 rows.
/// In each row those of the pattern come so many times, each by the places of its head and its tail
/// in the pattern, which is so wide.
/// The first amoebot has this value of variable 0.
fn crowd(
    alloc: Global,
    times: u8,
    width: u8,
    pattern: &[(u8, u8)],
    first: u8,
) -> Result<Vec<Bot>, Fail>
    ensures { IfOk result (λ bots. All IsBotInRange bots.items) }
{
    let mut bots: Vec<Bot> = Vec::new(alloc);
    for y in 0..25 {
        for time in 0..times {
            let x = time.saturating_mul(width);
            for (head, tail) in pattern {
                let value = if bots.is_empty() { first } else { 0 };
                let head = (x.saturating_add(*head), y);
                let tail = (x.saturating_add(*tail), y);
                add(&mut bots, spread(head, tail, value))?;
            }
        }
    }
    Ok(bots)
}

/// Contracted amoebots in rows of 40, of which the first has a mark.
/// Each has six neighbours at most.
/// So an entry takes the decision on its own amoebot, and then that of it and of six.
#[test]
fn eight_decisions_are_enough_among_contracted_ones(rt: HostRuntime) -> Result<(), Fail> {
    let bots = crowd(rt.alloc(), 40, 1, &[(0, 0)], 1)?;
    check_text(&rt, rt.alloc(), PASS, (40, 25), bots.as_slice(), 8, 999)
}

/// Expanded amoebots in rows of 40, with no node between them.
/// Each contracts in turn.
/// There are eight nodes round an expanded amoebot, so an entry takes the decision on its own
/// amoebot, and then that of it and of eight.
#[test]
fn ten_decisions_are_enough_where_expanded_ones_contract(rt: HostRuntime) -> Result<(), Fail> {
    let bots = crowd(rt.alloc(), 40, 2, &[(1, 0)], 0)?;
    check_text(&rt, rt.alloc(), BACK, (80, 25), bots.as_slice(), 10, 1000)
}

/// In each row twenty expanded amoebots, each with a contracted one behind its tail.
/// Each expanded amoebot takes the one behind it along,
/// and that one makes a note when its turn comes.
/// There are ten nodes round three in a row, so an entry takes the decision on its own amoebot,
/// and then those of at most twelve.
#[test]
fn thirteen_decisions_are_enough_where_one_pulls_another(rt: HostRuntime) -> Result<(), Fail> {
    let bots = crowd(rt.alloc(), 20, 3, &[(2, 1), (0, 0)], 0)?;
    check_text(&rt, rt.alloc(), DRAG, (60, 25), bots.as_slice(), 13, 1000)
}

/// An expanded amoebot by its head and tail, and its eight neighbours, which are expanded too.
static NINE: [((u8, u8), (u8, u8)); 9] = [
    ((11, 10), (10, 10)),
    ((13, 10), (12, 10)),
    ((11, 12), (11, 11)),
    ((10, 12), (10, 11)),
    ((8, 12), (9, 11)),
    ((8, 10), (9, 10)),
    ((10, 8), (10, 9)),
    ((11, 8), (11, 9)),
    ((13, 8), (12, 9)),
];

/// These nine, and 991 contracted ones in rows below them.
fn surrounded(alloc: Global) -> Result<Vec<Bot>, Fail>
    ensures { IfOk result (λ bots. All IsBotInRange bots.items) }
{
    let mut bots: Vec<Bot> = Vec::new(alloc);
    for (head, tail) in &NINE {
        add(&mut bots, spread(*head, *tail, 0))?;
    }
    for y in 20..45 {
        for x in 0..40 {
            if bots.len() < 1000 {
                add(&mut bots, standing(x, y, 0))?;
            }
        }
    }
    Ok(bots)
}

#[test]
fn ten_decisions_are_enough_where_one_has_eight_neighbours(rt: HostRuntime) -> Result<(), Fail> {
    let bots = surrounded(rt.alloc())?;
    check_text(&rt, rt.alloc(), BACK, (40, 45), bots.as_slice(), 10, 9)
}
