//! Tests of `Serial::follow`: the step of an entry without its old values is made,
//! or there is none.

ghost use Rattle.std.specs.Prelude.{◌≡◌, ◌<◌};
ghost use Rattle.amoebot_state.specs.Refusals.{IsBotInRange};

use amoebot_state::{Bot, Cell, CellName, End, Entry, Moved, PlainEntry, PlainPatch, Port, World};
use serial_model::Serial;
use small_worlds::{Expander, node, spread, standing, world_of};
use std::alloc::Global;
use std::process::Abort;
use std::test::Fail;

const RIGHT: Port = Port {
    end: End::Head,
    dir: 0,
};

/// The program that expands each amoebot to the right.
const EXPANDER: Expander = Expander { port: RIGHT };

/// The patch by which an amoebot on (2, 3) becomes another one, which is on (3, 3) too.
fn patch_to(bot: Bot) -> PlainPatch {
    let mut patch = PlainPatch::new();
    patch.push(CellName::Spot(node(3, 3)), Cell::Spot(Some(0)));
    patch.push(CellName::Body(0), Cell::Body(bot));
    patch
}

/// Its expansion to the right.
fn expansion() -> PlainEntry
    ensures { result.bot ≡ 0 }
{
    PlainEntry {
        caller: 4,
        turn: 7,
        bot: 0,
        action: 0,
        moved: Moved::Expand(RIGHT),
        patch: patch_to(spread((3, 3), (2, 3), 0)),
    }
}

/// In what an entry differs from it.
#[derive(Clone, Copy)]
enum Mistake {
    Action,
    Movement,
    NewValue,
    PairLess,
    IdleAmoebot,
}

fn wrong(way: Mistake) -> PlainEntry
    ensures { result.bot < 2 }
{
    let right = expansion();
    match way {
        Mistake::Action => PlainEntry { action: 1, ..right },
        Mistake::Movement => PlainEntry {
            moved: Moved::None,
            ..right
        },
        Mistake::NewValue => PlainEntry {
            patch: patch_to(spread((2, 3), (3, 3), 0)),
            ..right
        },
        Mistake::PairLess => PlainEntry {
            patch: PlainPatch::new(),
            ..right
        },
        Mistake::IdleAmoebot => PlainEntry { bot: 1, ..right },
    }
}

/// What becomes of the cells of an amoebot that expands to the right.
fn expect_expansion(rt: &impl Abort, entry: &Entry) {
    assert!(rt; (entry.caller, entry.turn, entry.bot) == (4, 7, 0));
    assert!(rt; (entry.action, entry.moved) == (0, Moved::Expand(RIGHT)));
    let cells = [
        (
            CellName::Spot(node(3, 3)),
            Cell::Spot(None),
            Cell::Spot(Some(0)),
        ),
        (
            CellName::Body(0),
            Cell::Body(standing(2, 3, 0)),
            Cell::Body(spread((3, 3), (2, 3), 0)),
        ),
    ];
    assert!(rt; entry.patch.triples() == cells.as_slice());
}

/// Whether a world is that of this amoebot alone.
fn is_world_of(alloc: Global, world: &World, bot: Bot) -> Result<bool, Fail>
    requires { IsBotInRange bot }
{
    let other = world_of(alloc, &[bot])?;
    Ok(world.same(&other))
}

#[test]
fn the_entry_of_a_step_has_the_old_values(rt: HostRuntime) -> Result<(), Fail> {
    let world = world_of(rt.alloc(), &[standing(2, 3, 0)])?;
    let mut serial = Serial::new(world);
    let entry = serial.follow(&EXPANDER, &expansion()).ok_or("a step")?;
    expect_expansion(&rt, &entry);
    let after = spread((3, 3), (2, 3), 0);
    assert!(rt; is_world_of(rt.alloc(), serial.world(), after)?);
    Ok(())
}

/// The second amoebot is expanded already, so that its program is idle.
#[test]
fn another_entry_leaves_the_world(rt: HostRuntime) -> Result<(), Fail> {
    let bots = [standing(2, 3, 0), spread((7, 6), (6, 6), 0)];
    let start = world_of(rt.alloc(), &bots)?;
    let ways = [
        Mistake::Action,
        Mistake::Movement,
        Mistake::NewValue,
        Mistake::PairLess,
        Mistake::IdleAmoebot,
    ];
    for way in ways {
        let mut serial = Serial::new(world_of(rt.alloc(), &bots)?);
        assert!(rt; serial.follow(&EXPANDER, &wrong(way)).is_none());
        assert!(rt; serial.world().same(&start));
        // The right one can still be followed, and only once.
        assert!(rt; serial.follow(&EXPANDER, &expansion()).is_some());
        assert!(rt; !serial.world().same(&start));
        assert!(rt; serial.follow(&EXPANDER, &expansion()).is_none());
    }
    Ok(())
}
