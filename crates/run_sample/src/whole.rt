ghost use Rattle.std.specs.Prelude.{◌≡◌, ◌≤◌, length, IfOk, true};
ghost use Rattle.tri_lattice.specs.Sets.{IsConnected};
ghost use Rattle.amoebot_state.specs.{Configs.{IsValid, with_these}, Occupied.{occupied}};
ghost use Rattle.action_tree.specs.Shipped as sample;
ghost use Rattle.run_sample.specs.Sample.{sample_area, sample_bots, sample_frame, sample_maxes};
ghost use Rattle.run_sample.specs.Whole.{IsSample};

use crate::amoebots::amoebots;
use crate::lists::lists;
use action_check::Checked;
use amoebot_state::{Bot, NoMemory, World, WorldRefusal};
use claim_core::Lists;
use shipped_programs::Shipped;
use std::alloc::Global;
use tri_lattice::Area;

/// A program, a world and callers' lists.
#[derive(Drop)]
pub struct Sample {
    pub checked: Checked,
    pub world: World,
    pub lists: Lists,
}

/// The sample of a number: the program `hexagon` with its guard on, 150 contracted amoebots,
/// which make a connected shape, and the lists of four callers, 4,000 turns each.
/// The same number gives the same sample; NoMemory may come in place of it.
pub fn make_sample(alloc: Global, seed: u32) -> Result<Sample, NoMemory>
    ensures sample { IfOk result (IsSample seed) }
    ensures connected { IfOk result (λ s. IsConnected (occupied s.world)) }
{
    let checked = guarded_hexagon(alloc)?;
    let bots = amoebots(alloc, seed)?;
    let world = world_of(alloc, checked.maxes(), bots.as_slice())?;
    let lists = lists(alloc)?;
    Ok(Sample {
        checked,
        world,
        lists,
    })
}

/// The program `hexagon` with its guard on.
fn guarded_hexagon(alloc: Global) -> Result<Checked, NoMemory>
    ensures { IfOk result (λ program. program ≡ record sample.hexagon { guard = true }) }
{
    let program = Shipped::Hexagon.program(alloc)?;
    Ok(program.with_guard(true))
}

/// The world of a sample's amoebots, none of which is refused.
fn world_of(alloc: Global, maxes: [u8; 8], bots: &[Bot]) -> Result<World, NoMemory>
    requires maxes { maxes ≡ sample_maxes }
    requires few { length bots.now ≤ sample_bots }
    requires valid { IsValid (with_these sample_frame bots.now) }
    ensures { IfOk result (λ world. world ≡ with_these sample_frame bots.now) }
{
    match World::new(alloc, area(), maxes, bots) {
        Ok(world) => Ok(world),
        Err(refusal) => Err(wanting(refusal)),
    }
}

/// What is left of a refusal that can be out of memory alone.
fn wanting(refusal: WorldRefusal) -> NoMemory
    requires { refusal ≡ WorldRefusal.NoMemory }
{
    let _ = refusal;
    NoMemory
}

fn area() -> Area
    ensures { result ≡ sample_area }
{
    Area::new(0, 0, 128, 128).unwrap()
}
