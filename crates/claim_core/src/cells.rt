ghost use Rattle.std.specs.Prelude.{◌≡◌, ◌<◌};
ghost use Rattle.claim_core.specs.Cells.{number, cells, cell_bound};

use amoebot_state::{CellName, World};
use tri_lattice::Area;

/// The number of a cell: the nodes of the area by their numbers, then the bodies by their ids;
/// None for a node outside.
pub fn cell_number(area: &Area, name: CellName) -> Option<usize>
    ensures { result ≡ number area.now name }
{
    match name {
        CellName::Spot(node) => match area.index(node) {
            Some(index) => Some(index as usize),
            None => None,
        },
        CellName::Body(id) => Some(area.size() as usize + usize::from(id)),
    }
}

/// How many cells a world has: one for each node of its area, and a body for each amoebot.
pub fn cells_of(world: &World) -> usize
    ensures value { result ≡ cells world.now }
    ensures few { result < cell_bound }
{
    world.area().size() as usize + usize::from(world.bots())
}
