ghost use Rattle.std.specs.Prelude.{◌≡◌, ◌∷◌, ◌++◌, [], OnOk, OnErr};
ghost use Rattle.amoebot_state.specs.Configs.{is_close, has_values};
ghost use Rattle.amoebot_state.specs.Storage.{put_at, put_bot, put_spot, put_bots, put_spots};
ghost use Rattle.amoebot_state.specs.Pairs.{plain_patch};
ghost use Rattle.tri_lattice.specs.{Lattice.{IsNear}, Extent.{index_of}};

use crate::bot::Bot;
use crate::cell::{Cell, CellName};
use std::alloc::AllocError;
use tri_lattice::{Area, Node, adjacent};

/// Whether the nodes are equal or adjacent.
pub(crate) fn is_close(a: Node, b: Node) -> bool
    requires a_near { IsNear a }
    requires b_near { IsNear b }
    ensures { result ≡ is_close a b }
{
    a == b || adjacent(a, b).is_some()
}

/// Whether no value is above its maximum.
pub(crate) fn has_values(maxes: &[u8; 8], values: &[u8; 8]) -> bool
    ensures { result ≡ has_values maxes.now values.now }
{
    for k in 0..8 {
        if values[k] > maxes[k] {
            return false;
        }
    }
    true
}

/// Adds an amoebot with the next id, and the id to its nodes.
pub(crate) fn put_new(
    area: &Area,
    amoebots: &mut Vec<Bot>,
    occupants: &mut Vec<Option<u16>>,
    id: u16,
    bot: &Bot,
) -> Result<(), AllocError>
    ensures bots { OnOk result (amoebots.new.items ≡ amoebots.old.items ++ bot.now ∷ []) }
    ensures grid { OnOk result (occupants.new.items
        ≡ put_at (put_at occupants.old.items (index_of area.now bot.now.head) (Some id))
        (index_of area.now bot.now.tail) (Some id)) }
    ensures bots_stay { OnErr result (amoebots.new.items ≡ amoebots.old.items) }
    ensures grid_stays { OnErr result (occupants.new.items ≡ occupants.old.items) }
{
    amoebots.push(*bot)?;
    put_at(occupants, area.index(bot.head), Some(id));
    put_at(occupants, area.index(bot.tail), Some(id));
    Ok(())
}

fn put_at(occupants: &mut Vec<Option<u16>>, number: Option<u32>, occupant: Option<u16>)
    ensures { occupants.new.items ≡ put_at occupants.old.items number occupant }
{
    if let Some(number) = number {
        if (number as usize) < occupants.len() {
            occupants[number as usize] = occupant;
        }
    }
}

/// Gives the cells of a patch their new values.
pub(crate) fn put_all(
    area: &Area,
    amoebots: &mut Vec<Bot>,
    occupants: &mut Vec<Option<u16>>,
    triples: &[(CellName, Cell, Cell)],
)
    ensures bots { amoebots.new.items ≡ put_bots amoebots.old.items (plain_patch triples.now) }
    ensures grid { occupants.new.items ≡ put_spots area.now occupants.old.items (plain_patch triples.now) }
{
    for triple in triples {
        put(area, amoebots, occupants, triple.0, triple.2);
    }
}

fn put(
    area: &Area,
    amoebots: &mut Vec<Bot>,
    occupants: &mut Vec<Option<u16>>,
    name: CellName,
    cell: Cell,
)
    ensures bots { amoebots.new.items ≡ put_bot amoebots.old.items name cell }
    ensures grid { occupants.new.items ≡ put_spot area.now occupants.old.items name cell }
{
    match (name, cell) {
        (CellName::Spot(node), Cell::Spot(occupant)) => {
            put_at(occupants, area.index(node), occupant);
        }
        (CellName::Body(id), Cell::Body(bot)) => {
            if usize::from(id) < amoebots.len() {
                amoebots[usize::from(id)] = bot;
            }
        }
        _ => {}
    }
}
