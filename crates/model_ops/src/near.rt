//! The bodies among what an amoebot was shown, read where they lie.

ghost use Rattle.std.specs.{Prelude.{◌≡◌, Some, IsSome}, Option.{option_copied}};
ghost use Rattle.amoebot_state.specs.{Configs.{bot_at}, Pairs.{body_at}, Refusals.{IsBotInRange}};
ghost use Rattle.amoebot_state.specs.Zones.{shown_alone};
ghost use Rattle.model_ops.specs.Drafts.{with_own};

use amoebot_state::{Bot, Cell, CellName, Found, Port};

/// The place of the first body but the own one among the cells of an amoebot
/// that is contracted and away from the edge: behind its own body and seven nodes.
const FIRST_BEHIND: usize = 8;

/// The occupant with this id behind a port: the amoebot itself as it is now,
/// another one as it was found.
#[inline(always)]
pub(crate) fn body_near<'a>(found: &'a Found, own: &'a Bot, id: u16, port: Port) -> &'a Bot
    requires there { IsSome (bot_at (shown_alone found.now) id) }
    requires in_range { IsBotInRange own.now }
    ensures value { bot_at (with_own found.now own.now) id ≡ Some result.now }
    ensures in_range { IsBotInRange result.now }
{
    if id == found.bot() {
        own
    } else {
        found_near(found, id, FIRST_BEHIND + usize::from(port.dir))
    }
}

/// The amoebot with an id, as it was found, for which this place among the cells is tried
/// before it is looked for.
#[inline(always)]
fn found_near(found: &Found, id: u16, place: usize) -> &Bot
    requires { IsSome (bot_at (shown_alone found.now) id) }
    ensures value { bot_at (shown_alone found.now) id ≡ Some result.now }
    ensures in_range { IsBotInRange result.now }
{
    let cells = found.cells();
    if place < cells.len() {
        let (name, cell) = &cells[place];
        match body_at(name, cell, id) {
            Some(bot) => return bot,
            None => {}
        }
    }
    found_last(found, id)
}

/// The same, looked for from the last cell, since the bodies are behind the nodes.
#[inline(never)]
fn found_last(found: &Found, id: u16) -> &Bot
    requires { IsSome (bot_at (shown_alone found.now) id) }
    ensures value { bot_at (shown_alone found.now) id ≡ Some result.now }
    ensures in_range { IsBotInRange result.now }
{
    let cells = found.cells();
    let count = cells.len();
    for back in 0..count {
        let (name, cell) = &cells[count - 1 - back];
        match body_at(name, cell, id) {
            Some(bot) => return bot,
            None => {}
        }
    }
    found_at_last(found, id)
}

/// The amoebot of a cell, where that is the body of this id.
#[inline(always)]
fn body_at<'a>(name: &CellName, cell: &'a Cell, id: u16) -> Option<&'a Bot>
    ensures { option_copied result ≡ body_at name.now cell.now id }
{
    match name {
        CellName::Body(other) => match cell {
            Cell::Body(bot) => { if *other == id { Some(bot) } else { None } }
            Cell::Spot(_) => None,
        },
        CellName::Spot(_) => None,
    }
}

/// The same, as `found` looks for it.
#[cold]
#[inline(never)]
fn found_at_last(found: &Found, id: u16) -> &Bot
    requires { IsSome (bot_at (shown_alone found.now) id) }
    ensures value { bot_at (shown_alone found.now) id ≡ Some result.now }
    ensures in_range { IsBotInRange result.now }
{
    match found.body(id) {
        Some(bot) => bot,
        None => unreachable!(),
    }
}
