ghost use Rattle.std.specs.Prelude.{◌≡◌};
ghost use Rattle.amoebot_state.specs.declared.refusal.WorldRefusal.TheVariants as refusal;

use std::alloc::{AllocError, AllocFailed};

/// There was not enough memory.
#[derive(Clone, Copy, Debug, Drop, PartialEq, Eq)]
pub struct NoMemory;

impl From<AllocError> for NoMemory {
    fn from(_error: AllocError) -> NoMemory {
        NoMemory
    }
}

impl<T: Drop> From<AllocFailed<T>> for NoMemory {
    fn from(_error: AllocFailed<T>) -> NoMemory {
        NoMemory
    }
}

/// Why there is no world.
/// `BadWall` carries the place of the wall at fault in its list,
/// and all others but `NoMemory` the id of the amoebot at fault, which is its place in the list.
#[derive(Clone, Copy, Debug, Drop, PartialEq, Eq)]
pub enum WorldRefusal {
    /// Its head or its tail is outside the area.
    OutOfBox(u16),
    /// Its head and its tail are neither equal nor adjacent.
    NotAdjacent(u16),
    /// A node of it is a node of an earlier amoebot.
    Overlap(u16),
    /// A value of it is above its maximum.
    BadValue(u16),
    /// There was not enough memory.
    NoMemory,
    /// It is outside the area, or stands on an earlier one.
    BadWall(u32),
    /// A node of it is a wall.
    OnWall(u16),
}

impl From<AllocError> for WorldRefusal {
    ghost from_gives = { λ _ e. e ≡ refusal.NoMemory };

    fn from(_error: AllocError) -> WorldRefusal {
        WorldRefusal::NoMemory
    }
}
