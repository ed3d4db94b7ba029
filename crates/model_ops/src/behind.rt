//! What an amoebot asks of a pair of an end and a direction, by what is behind it.

ghost use Rattle.std.specs.Prelude.{◌≡◌};
ghost use Rattle.model_ops.specs.Behinds.{connected_there, free_there, owner_there};

use amoebot_state::{Behind, Failure};

/// Whether the node there is occupied. NoPort, where the pair is none.
pub(crate) fn connected_there(behind: Behind) -> Result<bool, Failure>
    ensures { result ≡ connected_there behind }
{
    match behind {
        Behind::NoPort => Err(Failure::NoPort),
        Behind::Bot(_) => Ok(true),
        Behind::Edge | Behind::Wall | Behind::Empty => Ok(false),
    }
}

/// Whether the node there is in the area, no wall and empty. NoPort, where the pair is none.
pub(crate) fn free_there(behind: Behind) -> Result<bool, Failure>
    ensures { result ≡ free_there behind }
{
    match behind {
        Behind::NoPort => Err(Failure::NoPort),
        Behind::Empty => Ok(true),
        Behind::Edge | Behind::Wall | Behind::Bot(_) => Ok(false),
    }
}

/// The id of the occupant there. NoPort, where the pair is none; NoNeighbour.
pub(crate) fn owner_there(behind: Behind) -> Result<u16, Failure>
    ensures { result ≡ owner_there behind }
{
    match behind {
        Behind::NoPort => Err(Failure::NoPort),
        Behind::Bot(id) => Ok(id),
        Behind::Edge | Behind::Wall | Behind::Empty => Err(Failure::NoNeighbour),
    }
}
