//! Rounds of small runs: the numbers after each entry from a table that was written
//! by the definition, and those of the slow count.
ghost use Rattle.std.specs.Prelude.{◌≡◌, ◌≤◌, ◌<◌, ◌+◌, ◌^◌, IfOk, OnOk};
ghost use Rattle.std.specs.List.{All};
ghost use Rattle.amoebot_state.specs.Refusals.{IsBotInRange};

use crate::choices::{ERODING, PASSING};
use crate::decision_counts::Counting;
use crate::slow_rounds::{History, entry_of};
use amoebot_state::{Bot, Decider, End, Entry, Port, World};
use round_meter::Meter;
use serial_model::{Serial, Turned};
use small_worlds::{AtEdge, Expander, Idler, Marker, standing, turned, world_of};
use std::alloc::Global;
use std::process::Abort;
use std::test::Fail;

/// Expands into the node ahead.
const OUT: Expander = Expander {
    port: Port {
        end: End::Head,
        dir: 0,
    },
};

/// An amoebot by its place, with its value of variable 0.
type Place = (u8, u8, u8);

/// An amoebot, and the six round it.
static HEXAGON: [Place; 7] = [
    (3, 3, 0),
    (4, 3, 0),
    (3, 4, 0),
    (2, 4, 0),
    (2, 3, 0),
    (3, 2, 0),
    (4, 2, 0),
];

static RING_FIRST: [u16; 7] = [1, 2, 3, 4, 5, 6, 0];

static RING_COUNTS: [(u64, u64); 8] = [
    (0, 6),
    (0, 5),
    (0, 4),
    (0, 3),
    (0, 2),
    (0, 1),
    (1, 1),
    (2, 0),
];

static ONE: [Place; 1] = [(2, 3, 0)];

static TWO: [Place; 2] = [(2, 3, 0), (3, 3, 0)];

static BOTH_ACT: [(u64, u64); 3] = [(0, 2), (0, 1), (1, 0)];

static ROW: [Place; 3] = [(2, 3, 1), (3, 3, 0), (4, 3, 0)];

static TWO_ROWS: [Place; 5] = [(0, 1, 1), (1, 1, 0), (2, 1, 0), (0, 5, 1), (1, 5, 0)];

/// Feeds an entry, which has to be a step.
pub fn feed<D: Decider>(meter: &mut Meter<'_, D>, entry: &Entry) -> Result<(), Fail>
    requires { meter.old.state.fed < 2 ^ 31 }
    ensures { OnOk result (meter.new.state.fed ≡ meter.old.state.fed + 1) }
{
    if entry.bot >= meter.world().bots() {
        return Err(Fail::from("no amoebot"));
    }
    match meter.feed(entry) {
        Ok(()) => Ok(()),
        Err(_) => Err(Fail::from("no step")),
    }
}

/// Follows an entry without its old values, which has to be a step.
pub fn follow<D: Decider>(meter: &mut Meter<'_, D>, entry: &Entry) -> Result<(), Fail>
    requires { meter.old.state.fed < 2 ^ 31 }
    ensures { OnOk result (meter.new.state.fed ≡ meter.old.state.fed + 1) }
{
    if entry.bot >= meter.world().bots() {
        return Err(Fail::from("no amoebot"));
    }
    match meter.follow(&entry.plain()) {
        Ok(()) => Ok(()),
        Err(_) => Err(Fail::from("no step")),
    }
}

/// The rounds that have ended, and the amoebots that wait.
pub fn numbers<D: Decider>(meter: &Meter<'_, D>) -> (u64, u64) {
    (u64::from(meter.rounds()), u64::from(meter.waiting()))
}

/// Amoebots by their places, each with its value of variable 0.
fn bots_at(alloc: Global, places: &[Place]) -> Result<Vec<Bot>, Fail>
    ensures { IfOk result (λ bots. All IsBotInRange bots.items) }
{
    let mut bots = Vec::new(alloc);
    for place in places {
        bots.push(standing(place.0, place.1, place.2))?;
    }
    Ok(bots)
}

/// What a meter is compared with: the run of `Serial`, and the slow count.
#[derive(Drop)]
pub struct Reference {
    serial: Serial,
    history: History,
}

impl Reference {
    /// Begins at this world, before any turn.
    pub fn new<D: Decider>(alloc: Global, decider: &D, start: World) -> Result<Reference, Fail> {
        let history = History::new(alloc, decider, &start)?;
        Ok(Reference {
            serial: Serial::new(start),
            history,
        })
    }

    /// The world that was reached.
    pub fn world(&self) -> &World {
        self.serial.world()
    }

    /// The entry of an amoebot's turn, if there is one.
    fn turn_of<D: Decider>(
        &mut self,
        alloc: Global,
        decider: &D,
        bot: u16,
    ) -> Result<Option<Entry>, Fail> {
        if bot >= self.serial.world().bots() {
            Err("no amoebot")?;
        }
        match self.serial.activate(decider, 0, 0, bot) {
            Turned::Done(entry) => {
                self.history.push(alloc, decider, bot, self.serial.world())?;
                Ok(Some(entry))
            }
            Turned::Idle | Turned::Failed(_) => Ok(None),
        }
    }

    /// The meter's numbers are those of the slow count, and its world is that of `Serial`.
    pub fn check<R: Abort, D: Decider>(&self, rt: &R, meter: &Meter<'_, D>) {
        assert!(rt; meter.world().same(self.serial.world()));
        assert!(rt; numbers(meter) == self.history.rounds());
    }
}

/// A turn of an amoebot: whether it has an entry. After it the meter agrees.
pub fn take_turn<R: Abort, D: Decider>(
    rt: &R,
    alloc: Global,
    decider: &D,
    meter: &mut Meter<'_, D>,
    reference: &mut Reference,
    bot: u16,
) -> Result<bool, Fail>
    requires { meter.old.state.fed < 2 ^ 31 }
    ensures { OnOk result (meter.new.state.fed ≤ meter.old.state.fed + 1) }
{
    match reference.turn_of(alloc, decider, bot)? {
        Some(entry) => {
            feed(meter, &entry)?;
            reference.check(rt, meter);
            Ok(true)
        }
        None => Ok(false),
    }
}

/// What amoebots do in turn: the rounds and those that wait at the start and after each entry.
fn check_acts<R: Abort, D: Decider>(
    rt: &R,
    alloc: Global,
    decider: &D,
    meter: &mut Meter<'_, D>,
    reference: &mut Reference,
    acts: &[u16],
    counts: &[(u64, u64)],
) -> Result<(), Fail>
    requires { meter.old.state.fed ≡ 0 }
{
    if acts.len() > 1000 {
        Err("a long run")?;
    }
    for (number, act) in acts.iter().enumerate() {
        assert!(rt; counts.get(number) == Some(&numbers(meter)), "{number}");
        let has_entry = take_turn(rt, alloc, decider, meter, reference, *act)?;
        assert!(rt; has_entry, "{number}");
    }
    assert!(rt; counts.get(acts.len()) == Some(&numbers(meter)));
    Ok(())
}

/// The same of amoebots at these places.
fn check_counts<R: Abort, D: Decider>(
    rt: &R,
    alloc: Global,
    decider: &D,
    places: &[Place],
    acts: &[u16],
    counts: &[(u64, u64)],
) -> Result<(), Fail> {
    let bots = bots_at(alloc, places)?;
    check_bots(rt, alloc, decider, bots.as_slice(), acts, counts)
}

/// The same of these amoebots, from the start.
fn check_bots<R: Abort, D: Decider>(
    rt: &R,
    alloc: Global,
    decider: &D,
    bots: &[Bot],
    acts: &[u16],
    counts: &[(u64, u64)],
) -> Result<(), Fail>
    requires { All IsBotInRange bots.now }
{
    if bots.len() > 4096 {
        Err("many amoebots")?;
    }
    let mut reference = Reference::new(alloc, decider, world_of(alloc, bots)?)?;
    let mut meter = Meter::make(alloc, decider, world_of(alloc, bots)?)?;
    check_acts(rt, alloc, decider, &mut meter, &mut reference, acts, counts)
}

/// The ring erodes in the first round, and the one in the middle acts in the second.
/// It is enabled from the first entry on, but it rested at the start.
#[test]
fn a_ring_erodes_and_then_its_middle(rt: HostRuntime) -> Result<(), Fail> {
    check_counts(
        &rt,
        rt.alloc(),
        &ERODING,
        &HEXAGON,
        &RING_FIRST,
        &RING_COUNTS,
    )
}

#[test]
fn one_amoebot_has_a_round_an_entry(rt: HostRuntime) -> Result<(), Fail> {
    check_counts(&rt, rt.alloc(), &OUT, &ONE, &[0], &[(0, 1), (1, 0)])
}

/// An entry settles its own amoebot alone, in either order.
#[test]
fn two_that_are_enabled_both_have_to_act(rt: HostRuntime) -> Result<(), Fail> {
    check_counts(&rt, rt.alloc(), &Marker, &TWO, &[0, 1], &BOTH_ACT)?;
    check_counts(&rt, rt.alloc(), &Marker, &TWO, &[1, 0], &BOTH_ACT)
}

/// Both want the node between them.
/// The one that is late is not enabled any more, and so is settled.
#[test]
fn an_amoebot_is_disabled_by_another(rt: HostRuntime) -> Result<(), Fail> {
    let bots = [standing(2, 3, 0), turned(4, 3)];
    check_bots(&rt, rt.alloc(), &OUT, &bots, &[0], &[(0, 2), (1, 0)])
}

/// One that rested at the start of a round and is enabled in it by another
/// waits in the next round alone.
#[test]
fn an_amoebot_is_enabled_by_another(rt: HostRuntime) -> Result<(), Fail> {
    let counts = [(0, 1), (1, 1), (2, 0)];
    check_counts(&rt, rt.alloc(), &PASSING, &ROW, &[1, 2], &counts)?;
    let counts = [(0, 2), (0, 1), (1, 1)];
    check_counts(&rt, rt.alloc(), &PASSING, &TWO_ROWS, &[1, 4], &counts)
}

/// No round ends where nobody acts.
#[test]
fn without_an_entry_no_round_ends(rt: HostRuntime) -> Result<(), Fail> {
    check_counts(&rt, rt.alloc(), &Marker, &[], &[], &[(0, 0)])?;
    check_counts(&rt, rt.alloc(), &Marker, &ONE, &[], &[(0, 1)])
}

/// One that is idle or fails is not enabled.
#[test]
fn who_rests_or_fails_is_not_enabled(rt: HostRuntime) -> Result<(), Fail> {
    check_counts(&rt, rt.alloc(), &Idler, &ONE, &[], &[(0, 0)])?;
    check_counts(&rt, rt.alloc(), &AtEdge, &ONE, &[], &[(0, 0)])
}

/// Feeds an entry once more, which is no step then.
fn feed_again<R: Abort, D: Decider>(rt: &R, meter: &mut Meter<'_, D>, entry: &Entry)
    requires { meter.old.state.fed < 2 ^ 31 }
{
    if entry.bot < meter.world().bots() {
        match meter.feed(entry) {
            Ok(()) => panic!(rt; "a step"),
            Err(differs) => assert!(rt; differs.place == 1),
        }
    }
}

/// Amoebot 1 acts, and its entry comes once more.
/// It is refused, and takes one decision, and nothing else changes.
fn check_again<R: Abort, D: Decider>(
    rt: &R,
    decider: &Counting<D>,
    meter: &mut Meter<'_, Counting<D>>,
    serial: &mut Serial,
) -> Result<(), Fail>
    requires { meter.old.state.fed ≡ 0 }
{
    let entry = entry_of(serial, decider, 1)?;
    feed(meter, &entry)?;
    let _before = decider.taken();
    feed_again(rt, meter, &entry);
    assert!(rt; (decider.taken(), numbers(meter)) == (1, (1, 1)));
    assert!(rt; meter.world().same(serial.world()));
    Ok(())
}

/// An entry that is no step is refused with the number of entries before it, and changes nothing.
/// It takes one decision.
#[test]
fn an_entry_that_is_no_step_changes_nothing(rt: HostRuntime) -> Result<(), Fail> {
    let bots = [standing(2, 3, 1), standing(3, 3, 0), standing(4, 3, 0)];
    let decider = Counting::new(PASSING);
    let mut serial = Serial::new(world_of(rt.alloc(), &bots)?);
    let mut meter = Meter::make(rt.alloc(), &decider, world_of(rt.alloc(), &bots)?)?;
    check_again(&rt, &decider, &mut meter, &mut serial)
}
