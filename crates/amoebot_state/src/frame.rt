ghost use Rattle.std.specs.Prelude.{◌≡◌, ◌⊎◌, ◌<◌, ◌≤◌, ◌*◌, ◌++◌, ◌∷◌, ℕ, [], Decides, IfErr, IfOk, List};
ghost use Rattle.std.specs.Prelude.{OnOk, length, not, slice_index_or, slice_set, true, false};
ghost use Rattle.tri_lattice.specs.{declared.node.Node.{Node}, Extent.{index_of}};
ghost use Rattle.amoebot_state.specs.{Limits.{most_walls}, Configs.{IsValid, frame, is_wall, walled_frame}};
ghost use Rattle.amoebot_state.specs.{Refusals.{AreWalls, IsFirstBadWall, is_bad_wall}, Storage.{IsMarked}};

use crate::refusal::{NoMemory, WorldRefusal};
use std::alloc::Global;
use std::marker::Model;
use tri_lattice::{Area, Node};

/// What a world is without its amoebots: an area, walls in it, and the maxima of the variables.
/// It knows of each node of the area whether it is a wall.
#[derive(Drop)]
pub(crate) struct Frame {
    area: Area,
    maxes: [u8; 8],
    walls: Vec<bool>,
}

impl Model for Frame {
    ghost use Rattle.amoebot_state.specs.{Configs.{Config}, Storage.{IsFrame, gridded_frame}};

    ghost Value = { Config };

    ghost view = { λ f. gridded_frame f.area f.maxes f.walls.items };

    ghost invariant = { λ f. IsFrame (gridded_frame f.area f.maxes f.walls.items) f.walls.items };
}

impl Frame {
    /// A frame with these walls, which have to lie in the area, each once.
    pub(crate) fn make(
        alloc: Global,
        area: Area,
        walls: &[Node],
        maxes: [u8; 8],
    ) -> Result<Frame, WorldRefusal>
        requires { length walls.now ≤ most_walls }
        ensures value { IfOk result (λ f. f ≡ walled_frame area walls.now maxes) }
        ensures walls { OnOk result (AreWalls area walls.now (length walls.now)) }
        ensures fault { IfErr result (λ e. (e ≡ WorldRefusal.NoMemory)
            ⊎ ((place : ℕ) × (e ≡ WorldRefusal.BadWall place) × IsFirstBadWall area walls.now place)) }
    {
        let mut marks = Vec::new(alloc);
        marks.resize(area.size() as usize, false)?;
        for (place, wall) in walls.iter().enumerate() {
            if !mark(&area, &mut marks, *wall) {
                return Err(WorldRefusal::BadWall(place as u32));
            }
        }
        Ok(Frame {
            area,
            maxes,
            walls: marks,
        })
    }

    pub(crate) fn area(&self) -> &Area
        ensures { result.now ≡ self.now.area }
    {
        &self.area
    }

    pub(crate) fn maxes(&self) -> &[u8; 8]
        ensures { result.now ≡ self.now.maxes }
    {
        &self.maxes
    }

    pub(crate) fn keeps(&self)
        ensures { IsValid self.now }
    {
        let _area = &self.area;
    }

    pub(crate) fn is_wall(&self, node: Node) -> bool
        ensures { result ≡ is_wall self.now node }
    {
        match self.area.index(node) {
            Some(number) => self.is_wall_number(number),
            None => false,
        }
    }

    /// Whether the node with this number is a wall.
    pub(crate) fn is_wall_number(&self, number: u32) -> bool
        ensures { (v : Node) → index_of self.now.area v ≡ Some number → result ≡ is_wall self.now v }
    {
        let place = number as usize;
        place < self.walls.len() && self.walls[place]
    }

    pub(crate) fn same(&self, other: &Frame) -> bool
        ensures { Decides result (frame self.now ≡ frame other.now) }
    {
        self.has_area_and_walls_of(other) && self.maxes == other.maxes
    }

    /// Whether area and walls are those of the other frame.
    pub(crate) fn has_area_and_walls_of(&self, other: &Frame) -> bool
        ensures { Decides result ((self.now.area ≡ other.now.area) × (self.now.walls ≡ other.now.walls)) }
    {
        self.area == other.area && self.walls.as_slice() == other.walls.as_slice()
    }

    pub(crate) fn copy(&self, alloc: Global) -> Result<Frame, NoMemory>
        ensures { IfOk result (λ f. f ≡ self.now) }
    {
        let walls = Vec::from_slice(alloc, self.walls.as_slice())?;
        Ok(Frame {
            area: self.area,
            maxes: self.maxes,
            walls,
        })
    }
}

/// Marks a node as a wall. Whether it may be one: it lies in the area and is not marked yet.
fn mark(area: &Area, marks: &mut Vec<bool>, node: Node) -> bool
    requires { length marks.old.items ≡ area.now.w * area.now.h }
    ensures good { result ≡ true → (before : List Node)
        → IsMarked area.now before marks.old.items
        → (is_bad_wall area.now before node ≡ false)
        × IsMarked area.now (before ++ node ∷ []) marks.new.items }
    ensures bad { result ≡ false → (before : List Node)
        → IsMarked area.now before marks.old.items
        → is_bad_wall area.now before node ≡ true }
{
    match area.index(node) {
        Some(number) => mark_number(marks, number as usize),
        None => false,
    }
}

fn mark_number(marks: &mut Vec<bool>, number: usize) -> bool
    requires { number < length marks.old.items }
    ensures value { result ≡ not (slice_index_or marks.old.items number false) }
    ensures marks { marks.new.items ≡ slice_set marks.old.items number true }
{
    let marked = marks[number];
    marks[number] = true;
    !marked
}
