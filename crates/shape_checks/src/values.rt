ghost use Rattle.std.specs.Prelude.{◌≡◌, ◌<◌};
ghost use Rattle.amoebot_state.specs.Limits.{most_vars};
ghost use Rattle.shape_checks.specs.Values.{value_count};

use amoebot_state::World;

/// How many amoebots have the value in the variable, whose number is below 8.
pub fn count_value(world: &World, var: u8, value: u8) -> u32
    requires { var < most_vars }
    ensures { result ≡ value_count world.now var value }
{
    let mut count = 0;
    for id in 0..world.bots() {
        if world.bot(id).mem[usize::from(var)] == value {
            count += 1;
        }
    }
    count
}
