ghost use Rattle.std.specs.Prelude.{◌≡◌, ◌≤◌, length, IsSome, OnOk};
ghost use Rattle.std.specs.List.{All};
ghost use Rattle.amoebot_state.specs.Configs.{bot_at};

use crate::fields::field_of;
use amoebot_state::World;
use claim_core::Lists;
use claim_rule::Seats;
use small_worlds::{Idler, lists_of, standing, world_in};
use std::alloc::Global;
use std::process::Abort;
use std::test::Fail;

/// Takes the seats that are left, of which there are so many of sixteen, and gives them back,
/// the last one first.
fn take_and_give(rt: &impl Abort, seats: &mut Seats<Idler>, left: u8) -> Result<(), Fail>
    requires { left ≤ 16 }
    ensures { OnOk result (seats.new ≡ seats.old) }
{
    match seats.take() {
        None => {
            assert!(rt; left == 0);
            Ok(())
        }
        Some(seat) => {
            if left == 0 {
                Err("one seat more")?;
            }
            assert!(rt; (seat.caller(), seat.next_turn()) == (16 - left, 0));
            take_and_give(rt, seats, left - 1)?;
            seats.give(seat);
            Ok(())
        }
    }
}

/// All sixteen are taken and given back, twice.
fn come_back_twice(rt: &impl Abort, seats: &mut Seats<Idler>) -> Result<(), Fail>
    ensures { OnOk result (seats.new ≡ seats.old) }
{
    take_and_give(rt, seats, 16)?;
    take_and_give(rt, seats, 16)
}

/// The same on a field over the world, which is closed then.
fn come_back(rt: &impl Abort, alloc: Global, world: World, lists: &Lists) -> Result<(), Fail>
    requires some { 1 ≤ length lists.now.ids }
    requires bots { All (All (λ id. IsSome (bot_at world id))) lists.now.ids }
{
    let (field, mut seats) = field_of(alloc, &Idler, world, lists)?;
    come_back_twice(rt, &mut seats)?;
    let (last, journal) = field.close(seats);
    assert!(rt; last.bots() == 2 && journal.entries().is_empty());
    Ok(())
}

/// The list of a caller.
const ONE: &[u16] = &[0];

#[test]
fn sixteen_seats_come_back_in_another_order(rt: HostRuntime) -> Result<(), Fail> {
    let alloc = rt.alloc();
    let world = world_in(alloc, 8, 8, &[standing(2, 3, 0), standing(3, 3, 0)])?;
    let lists = lists_of(alloc, 3, &world, &[ONE; 16])?;
    come_back(&rt, alloc, world, &lists)
}
