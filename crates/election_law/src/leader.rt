//! The leader of a world.

ghost use Rattle.std.specs.Prelude.{◌≡◌};
ghost use Rattle.election_law.specs.Elections.{leader_of};

use amoebot_state::World;

/// The number of the variable `leader`.
pub(crate) const LEADER: usize = 1;

/// The first amoebot with `leader` 1, if there is one.
pub(crate) fn first_leader(world: &World) -> Option<u16>
    ensures { result ≡ leader_of world.now }
{
    for id in 0..world.bots() {
        if world.bot(id).mem[LEADER] == 1 {
            return Some(id);
        }
    }
    None
}
