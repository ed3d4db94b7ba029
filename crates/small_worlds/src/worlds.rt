//! Amoebots, worlds of them, and lists of turns over such a world.

ghost use Rattle.std.specs.Prelude.{◌≡◌, ◌<◌, ◌≤◌, ◌∷◌, ◌++◌, [], map, length, Some, IfOk, OnOk, IsSome};
ghost use Rattle.std.specs.{Bool.{OnTrue}, List.{All}};
ghost use Rattle.tri_lattice.specs.Lattice.{IsNear};
ghost use Rattle.amoebot_state.specs.{Limits.{most_bots}, Configs.{bot_at}, Refusals.{IsBotInRange}};
ghost use Rattle.claim_core.specs.Turns.{HaveBots};

use amoebot_state::{Bot, Chir, World};
use claim_core::Lists;
use std::alloc::Global;
use std::test::Fail;
use tri_lattice::{Area, Node};

/// The node at two coordinates.
pub fn node(x: u8, y: u8) -> Node
    ensures { IsNear result }
{
    Node {
        x: i16::from(x),
        y: i16::from(y),
    }
}

/// A contracted amoebot with a value of variable 0, whose local directions are the global ones.
pub fn standing(x: u8, y: u8, value: u8) -> Bot
    ensures { IsBotInRange result }
{
    spread((x, y), (x, y), value)
}

/// An amoebot by its head and its tail.
pub fn spread(head: (u8, u8), tail: (u8, u8), value: u8) -> Bot
    ensures { IsBotInRange result }
{
    Bot {
        head: node(head.0, head.1),
        tail: node(tail.0, tail.1),
        rot: 0,
        chir: Chir::Plus,
        mem: [value, 0, 0, 0, 0, 0, 0, 0],
    }
}

/// A contracted amoebot whose local direction 0 is the global direction 3.
pub fn turned(x: u8, y: u8) -> Bot
    ensures { IsBotInRange result }
{
    Bot {
        rot: 3,
        ..standing(x, y, 0)
    }
}

/// The world of these amoebots in the area 0 0 8 8, whose variable 0 is 0 or 1.
pub fn world_of(alloc: Global, bots: &[Bot]) -> Result<World, Fail>
    requires few { length bots.now ≤ most_bots }
    requires in_range { All IsBotInRange bots.now }
    ensures { IfOk result (λ world. world.bots ≡ map Some bots.now) }
{
    world_in(alloc, 8, 8, bots)
}

/// That world in the area of this width and height at 0 0.
pub fn world_in(alloc: Global, w: u16, h: u16, bots: &[Bot]) -> Result<World, Fail>
    requires few { length bots.now ≤ most_bots }
    requires in_range { All IsBotInRange bots.now }
    ensures { IfOk result (λ world. world.bots ≡ map Some bots.now) }
{
    let area = Area::new(0, 0, w, h).ok_or("an area")?;
    Ok(World::new(alloc, area, [1, 0, 0, 0, 0, 0, 0, 0], bots)?)
}

/// The lists of callers of so many turns, whose ids are amoebots of the world.
pub fn lists_of(alloc: Global, turns: u32, world: &World, ids: &[&[u16]]) -> Result<Lists, Fail>
    ensures callers { IfOk result (λ lists. length lists.ids ≡ length ids.now) }
    ensures there { IfOk result (λ lists. All (All (λ id. IsSome (bot_at world.now id))) lists.ids) }
    ensures below { IfOk result (λ lists. HaveBots (length world.now.bots) lists) }
{
    let mut lists = Lists::new(alloc, turns).ok().ok_or("no lists")?;
    for list in ids {
        add(alloc, world, &mut lists, list)?;
    }
    Ok(lists)
}

fn add(alloc: Global, world: &World, lists: &mut Lists, ids: &[u16]) -> Result<(), Fail>
    ensures added { OnOk result (lists.new.ids ≡ lists.old.ids ++ ids.now ∷ []) }
    ensures there { OnOk result (All (λ id. IsSome (bot_at world.now id)) ids.now) }
    ensures below { OnOk result (All (λ id. id < length world.now.bots) ids.now) }
{
    let fits = !ids.is_empty()
        && ids.len() <= 4096
        && lists.callers() < 16
        && lists.turns() <= 4096;
    if !fits || !are_there(world, ids) {
        Err("a list")?;
    }
    lists.add(alloc, ids).ok().ok_or("no list")?;
    Ok(())
}

/// Whether the ids are those of amoebots of the world.
fn are_there(world: &World, ids: &[u16]) -> bool
    ensures there { OnTrue result (All (λ id. IsSome (bot_at world.now id)) ids.now) }
    ensures below { OnTrue result (All (λ id. id < length world.now.bots) ids.now) }
{
    for id in ids {
        if !is_there(world, *id) {
            return false;
        }
    }
    true
}

fn is_there(world: &World, id: u16) -> bool
    ensures there { OnTrue result (IsSome (bot_at world.now id)) }
    ensures below { OnTrue result (id < length world.now.bots) }
{
    if id >= world.bots() {
        return false;
    }
    let _shown = world.found(id);
    true
}
