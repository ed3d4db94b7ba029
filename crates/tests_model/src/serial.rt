//! Tests of `serial_model` over these worlds: one turn,
//! and entries that are a run or stop to be one.

ghost use Rattle.std.specs.Prelude.{◌≡◌, ◌<◌, length, IfOk};
ghost use Rattle.std.specs.List.{All};
ghost use Rattle.amoebot_state.specs.Refusals.{IsBotInRange};
ghost use Rattle.serial_model.specs.Replays.{AreCountable};

use amoebot_state::{Bot, Cell, CellName, End, Entry, Failure, Moved, Patch, PlainEntry, World};
use serial_model::{Serial, Turned, replay, replay_plain};
use small_worlds::{AtEdge, Marker, standing, world_of};
use std::alloc::Global;
use std::test::Fail;

/// An amoebot of the row, with its value of variable 0.
fn in_row(id: u16, value: u8) -> Bot
    requires { id < 4 }
    ensures { IsBotInRange result }
{
    standing(2 + id as u8, 3, value)
}

/// The amoebots 0 to 3 in a row, each with its value of variable 0.
fn row(alloc: Global, values: [u8; 4]) -> Result<World, Fail>
    ensures { IfOk result (λ w. length w.bots ≡ 4) }
{
    let bots = [
        in_row(0, values[0]),
        in_row(1, values[1]),
        in_row(2, values[2]),
        in_row(3, values[3]),
    ];
    world_of(alloc, &bots)
}

/// The body of an amoebot, with the values of variable 0 before and after.
fn body(id: u16, was: u8, value: u8) -> Patch
    requires { id < 4 }
    ensures { length result ≡ 1 }
{
    let mut patch = Patch::new();
    patch.push(
        CellName::Body(id),
        Cell::Body(in_row(id, was)),
        Cell::Body(in_row(id, value)),
    );
    patch
}

/// The step of an amoebot that sets its variable.
fn step(id: u16) -> Entry
    requires { id < 4 }
    ensures { result.bot ≡ id }
{
    Entry {
        caller: 0,
        turn: 0,
        bot: id,
        action: 0,
        moved: Moved::None,
        patch: body(id, 0, 1),
    }
}

/// In what an entry differs from a step.
#[derive(Clone, Copy)]
enum Mistake {
    Action,
    Movement,
    PairMore,
    PairLess,
    PairOfAnother,
    OtherValue,
    IdleAmoebot,
    OldValue,
}

/// Those that show without the old values too.
const WAYS: [Mistake; 7] = [
    Mistake::Action,
    Mistake::Movement,
    Mistake::PairMore,
    Mistake::PairLess,
    Mistake::PairOfAnother,
    Mistake::OtherValue,
    Mistake::IdleAmoebot,
];

fn wrong(id: u16, way: Mistake) -> Entry
    requires { id < 3 }
    ensures { result.bot < 4 }
{
    let right = step(id);
    match way {
        Mistake::Action => Entry { action: 1, ..right },
        Mistake::Movement => Entry {
            moved: Moved::Contract(End::Head),
            ..right
        },
        Mistake::PairMore => {
            let mut patch = body(id, 0, 1);
            let own = Cell::Spot(Some(id));
            patch.push(CellName::Spot(in_row(id, 1).head), own, own);
            Entry { patch, ..right }
        }
        Mistake::PairLess => Entry {
            patch: Patch::new(),
            ..right
        },
        Mistake::PairOfAnother => Entry {
            patch: body(3, 0, 1),
            ..right
        },
        Mistake::OtherValue => Entry {
            patch: body(id, 0, 0),
            ..right
        },
        Mistake::IdleAmoebot => step(3),
        Mistake::OldValue => Entry {
            patch: body(id, 1, 1),
            ..right
        },
    }
}

/// The step of an amoebot, or, at the place, an entry that is none.
fn entry_at(id: u16, place: u16, way: Mistake) -> Entry
    requires { id < 3 }
    ensures { result.bot < 4 }
{
    if id == place {
        wrong(id, way)
    } else {
        step(id)
    }
}

#[test]
fn a_failed_turn_leaves_the_world(rt: HostRuntime) -> Result<(), Fail> {
    let alone = standing(7, 3, 0);
    let mut serial = Serial::new(world_of(rt.alloc(), &[alone])?);
    assert!(rt;
        matches!(
            &serial.activate(&AtEdge, 0, 0, 0),
            Turned::Failed(Failure::Edge)
        )
    );
    assert!(rt; *serial.world().bot(0) == alone);
    let world = serial.into_world();
    assert!(rt; world.bots() == 1);
    Ok(())
}

/// Whether a row of these values is led to one of those by the entries.
fn leads(alloc: Global, from: [u8; 4], entries: &[Entry], to: [u8; 4]) -> Result<bool, Fail>
    requires there { All (λ e. e.bot < 4) entries.now }
    requires few { AreCountable entries.now }
{
    let last = replay(&Marker, row(alloc, from)?, entries)?;
    let goal = row(alloc, to)?;
    Ok(last.same(&goal))
}

#[test]
fn entries_that_are_steps_agree(rt: HostRuntime) -> Result<(), Fail> {
    let entries = [step(1), step(0), step(2)];
    assert!(rt; leads(rt.alloc(), [0, 0, 0, 1], &entries, [1, 1, 1, 1])?);
    assert!(rt; leads(rt.alloc(), [0, 1, 0, 1], &[], [0, 1, 0, 1])?);
    Ok(())
}

/// The same of entries without their old values.
fn plain_leads(
    alloc: Global,
    from: [u8; 4],
    entries: &[PlainEntry],
    to: [u8; 4],
) -> Result<bool, Fail>
    requires there { All (λ e. e.bot < 4) entries.now }
    requires few { AreCountable entries.now }
{
    let last = replay_plain(&Marker, row(alloc, from)?, entries)?;
    let goal = row(alloc, to)?;
    Ok(last.same(&goal))
}

#[test]
fn entries_without_old_values_that_are_steps_agree(rt: HostRuntime) -> Result<(), Fail> {
    let entries = [step(1).plain(), step(0).plain(), step(2).plain()];
    assert!(rt; plain_leads(rt.alloc(), [0, 0, 0, 1], &entries, [1, 1, 1, 1])?);
    assert!(rt; plain_leads(rt.alloc(), [0, 1, 0, 1], &[], [0, 1, 0, 1])?);
    Ok(())
}

#[test]
fn the_first_entry_that_is_no_step_is_told(rt: HostRuntime) -> Result<(), Fail> {
    for way in WAYS {
        for place in 0..3 {
            assert!(rt; place_of(rt.alloc(), way, place)? == Some(u32::from(place)));
            assert!(rt; plain_place_of(rt.alloc(), way, place)? == Some(u32::from(place)));
        }
    }
    Ok(())
}

/// An old value shows where it is compared, and nowhere else.
#[test]
fn another_old_value_is_no_step(rt: HostRuntime) -> Result<(), Fail> {
    for place in 0..3 {
        let way = Mistake::OldValue;
        assert!(rt; place_of(rt.alloc(), way, place)? == Some(u32::from(place)));
        assert!(rt; plain_place_of(rt.alloc(), way, place)? == None);
    }
    Ok(())
}

/// Where three entries, of which the one at the place has this mistake, stop to be a run.
fn place_of(alloc: Global, way: Mistake, place: u16) -> Result<Option<u32>, Fail> {
    let entries = [
        entry_at(0, place, way),
        entry_at(1, place, way),
        entry_at(2, place, way),
    ];
    match replay(&Marker, row(alloc, [0, 0, 0, 1])?, &entries) {
        Ok(_) => Ok(None),
        Err(differs) => Ok(Some(differs.place)),
    }
}

/// Where they do so without their old values.
fn plain_place_of(alloc: Global, way: Mistake, place: u16) -> Result<Option<u32>, Fail> {
    let entries = [
        entry_at(0, place, way).plain(),
        entry_at(1, place, way).plain(),
        entry_at(2, place, way).plain(),
    ];
    match replay_plain(&Marker, row(alloc, [0, 0, 0, 1])?, &entries) {
        Ok(_) => Ok(None),
        Err(differs) => Ok(Some(differs.place)),
    }
}
