ghost use Rattle.std.specs.Prelude.{◌≡◌, ◌<◌, ◌≤◌, ◌+◌, ◌++◌, IfSome, length, map};
ghost use Rattle.amoebot_state.specs.{Limits.{node_room, cell_room}, Known.{read_on, known_zone, next_cell}};
ghost use Rattle.amoebot_state.specs.{Pairs.{body_in}, Refusals.{IsBotInRange}, Zones.{others}};
ghost use Rattle.arrayvec.specs.ArrayVec.{array_vec_len};

use crate::cell::{CELL_ROOM, Cell, CellName};
use crate::found::{body_in, spot_in};
use crate::zone::{Ids, push_other, zone_nodes};
use arrayvec::ArrayVec;
use tri_lattice::{Area, Node};

/// The cells of a zone.
type Names = ArrayVec<CellName, CELL_ROOM>;

/// The cell of an amoebot's zone to be read next, after these, which were read in zone order,
/// the first one first: its own body, then the nodes that follow from this,
/// then the bodies that follow from the occupants that were read.
/// None exactly where the zone as these cells tell it has no more.
/// It takes no memory.
pub fn next_cell(area: &Area, bot: u16, cells: &[(CellName, Cell)]) -> Option<CellName>
    requires in_range { IfSome (body_in cells.now bot) IsBotInRange }
    ensures { result ≡ next_cell area.now bot cells.now }
{
    let zone = known_zone(area, bot, cells);
    zone.as_slice().get(cells.len()).copied()
}

/// The zone as the cells that were read tell it.
fn known_zone(area: &Area, bot: u16, cells: &[(CellName, Cell)]) -> Names
    requires in_range { IfSome (body_in cells.now bot) IsBotInRange }
    ensures { result.items ≡ known_zone area.now bot cells.now }
{
    let mut zone = ArrayVec::new();
    zone.push(CellName::Body(bot));
    match body_in(cells, bot) {
        Some(own) => {
            let nodes = zone_nodes(area, own);
            let ids = others_read(cells, bot, nodes.as_slice());
            push_spots(&mut zone, nodes.as_slice());
            push_bodies(&mut zone, ids.as_slice());
        }
        None => {}
    }
    zone
}

/// The other amoebots that were read on the nodes.
fn others_read(cells: &[(CellName, Cell)], bot: u16, nodes: &[Node]) -> Ids
    requires { length nodes.now ≤ node_room }
    ensures value { result.items ≡ others (read_on cells.now) bot nodes.now }
    ensures few { array_vec_len result ≤ node_room }
{
    let mut ids = ArrayVec::new();
    for node in nodes {
        push_other(&mut ids, bot, spot_in(cells, *node).unwrap_or(None));
    }
    ids
}

fn push_spots(zone: &mut Names, nodes: &[Node])
    requires { array_vec_len zone.old + length nodes.now ≤ cell_room }
    ensures { zone.new.items ≡ zone.old.items ++ map CellName.Spot nodes.now }
{
    for node in nodes {
        zone.push(CellName::Spot(*node));
    }
}

fn push_bodies(zone: &mut Names, ids: &[u16])
    requires { array_vec_len zone.old + length ids.now ≤ cell_room }
    ensures { zone.new.items ≡ zone.old.items ++ map CellName.Body ids.now }
{
    for id in ids {
        zone.push(CellName::Body(*id));
    }
}
