//! Entries whose old values were tampered with: nobody goes back over them.
ghost use Rattle.std.specs.Prelude.{◌≡◌, ◌≤◌};

use amoebot_state::Chir::{self, Minus, Plus};
use amoebot_state::{Bot, Cell, CellName, End, Entry, Moved, Patch, Port};
use rewind_log::rewind;
use small_worlds::{Expander, node, spread, world_of};
use std::alloc::Global;
use std::test::Fail;

/// The port ahead.
const AHEAD: Port = Port {
    end: End::Head,
    dir: 0,
};

/// Expands into the node ahead.
const OUT: Expander = Expander { port: AHEAD };

/// Old values of an expansion: who was on the node ahead; the amoebot's head, its tail,
/// its rotation, its chirality, and its value of variable 0.
type Before = (Option<u16>, (u8, u8), (u8, u8), u8, Chir, u8);

/// Those of amoebot 1, which stood at (2,3) and looked at (3,3).
const RIGHT: Before = (None, (2, 3), (2, 3), 0, Plus, 0);

/// What was changed in them, and the old values then.
static TAMPERED: [(&str, Before); 16] = [
    ("another rotation", (None, (2, 3), (2, 3), 1, Plus, 0)),
    ("no rotation", (None, (2, 3), (2, 3), 6, Plus, 0)),
    (
        "no rotation, as a large number",
        (None, (2, 3), (2, 3), 255, Plus, 0),
    ),
    ("the other chirality", (None, (2, 3), (2, 3), 0, Minus, 0)),
    ("on the node ahead", (None, (3, 3), (3, 3), 0, Plus, 0)),
    ("on another node", (None, (5, 6), (5, 6), 0, Plus, 0)),
    (
        "on another amoebot's node",
        (None, (2, 5), (2, 5), 0, Plus, 0),
    ),
    ("outside the area", (None, (9, 9), (9, 9), 0, Plus, 0)),
    ("expanded as after it", (None, (3, 3), (2, 3), 0, Plus, 0)),
    (
        "expanded to the other side",
        (None, (2, 3), (1, 3), 0, Plus, 0),
    ),
    (
        "on nodes that are apart",
        (None, (2, 3), (4, 3), 0, Plus, 0),
    ),
    ("another value", (None, (2, 3), (2, 3), 0, Plus, 1)),
    ("above the maximum", (None, (2, 3), (2, 3), 0, Plus, 2)),
    (
        "the node was its own",
        (Some(1), (2, 3), (2, 3), 0, Plus, 0),
    ),
    (
        "the node was another's",
        (Some(0), (2, 3), (2, 3), 0, Plus, 0),
    ),
    (
        "the node was that of an amoebot that is not there",
        (Some(3), (2, 3), (2, 3), 0, Plus, 0),
    ),
];

/// The entry in which an amoebot in this row expands from (2,y) to (3,y), with these old values.
fn expansion(bot: u16, y: u8, before: Before) -> Entry
    ensures { result.bot ≡ bot }
{
    let mut patch = Patch::new();
    patch.push(
        CellName::Spot(node(3, y)),
        Cell::Spot(before.0),
        Cell::Spot(Some(bot)),
    );
    patch.push(
        CellName::Body(bot),
        Cell::Body(bot_before(before)),
        Cell::Body(spread((3, y), (2, y), 0)),
    );
    Entry {
        caller: 0,
        turn: 0,
        bot,
        action: 0,
        moved: Moved::Expand(AHEAD),
        patch,
    }
}

fn bot_before(before: Before) -> Bot {
    Bot {
        rot: before.3,
        chir: before.4,
        ..spread(before.1, before.2, before.5)
    }
}

/// Three amoebots expand one after another, and the old values of amoebot 1 are these.
/// Where one cannot go back from the last world to a place.
fn differs_at(alloc: Global, before: Before, place: u32) -> Result<Option<u32>, Fail>
    requires { place ≤ 3 }
{
    let bots = [
        spread((3, 1), (2, 1), 0),
        spread((3, 3), (2, 3), 0),
        spread((3, 5), (2, 5), 0),
    ];
    let last = world_of(alloc, &bots)?;
    let entries = [
        expansion(0, 1, (None, (2, 1), (2, 1), 0, Plus, 0)),
        expansion(1, 3, before),
        expansion(2, 5, (None, (2, 5), (2, 5), 0, Plus, 0)),
    ];
    match rewind(&OUT, last, &entries, place) {
        Ok(_) => Ok(None),
        Err(differs) => Ok(Some(differs.place)),
    }
}

#[test]
fn right_old_values_lead_back(rt: HostRuntime) -> Result<(), Fail> {
    for place in 0..4 {
        assert!(rt; differs_at(rt.alloc(), RIGHT, place)? == None);
    }
    Ok(())
}

#[test]
fn nobody_goes_back_over_other_old_values(rt: HostRuntime) -> Result<(), Fail> {
    for (change, before) in &TAMPERED {
        assert!(rt; differs_at(rt.alloc(), *before, 0)? == Some(1), "{change}");
        assert!(rt; differs_at(rt.alloc(), *before, 1)? == Some(1), "{change}");
    }
    Ok(())
}

/// A place behind the entry does not need it.
#[test]
fn behind_other_old_values_the_way_is_open(rt: HostRuntime) -> Result<(), Fail> {
    for (change, before) in &TAMPERED {
        assert!(rt; differs_at(rt.alloc(), *before, 2)? == None, "{change}");
        assert!(rt; differs_at(rt.alloc(), *before, 3)? == None, "{change}");
    }
    Ok(())
}
