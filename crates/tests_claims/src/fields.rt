//! Fields, their seats, and turns that have decided.

ghost use Rattle.std.specs.Prelude.{◌≡◌, ◌≤◌, length, slice_set, None, IfOk, IsSome};
ghost use Rattle.std.specs.List.{All};
ghost use Rattle.amoebot_state.specs.Configs.{bot_at};
ghost use Rattle.claim_rule.specs.Seating.{AreOf, IsFirst};
ghost use Rattle.claim_rule.specs.Settling.{IsToTake};
ghost use Rattle.claim_rule.specs.Tokens.{IsOf, number_in};

use amoebot_state::{Change, Decider, Verdict, World};
use claim_core::Lists;
use claim_rule::{Claimed, Field, Manner, Seat, Seats};
use node_claims::try_claim;
use std::alloc::Global;
use std::test::Fail;

/// A field over the world, with a seat for each caller.
pub fn field_of<'d, D: Decider>(
    alloc: Global,
    decider: &'d D,
    world: World,
    lists: &'d Lists,
) -> Result<(Field<'d, D>, Seats<D>), Fail>
    requires some { 1 ≤ length lists.now.ids }
    requires bots { All (All (λ id. IsSome (bot_at world id))) lists.now.ids }
    ensures lists { IfOk result (λ made. made.0.terms.lists ≡ lists.now) }
    ensures of { IfOk result (λ made. AreOf made.0 made.1) }
    ensures all { IfOk result (λ made. All (λ seat. IsSome seat) made.1.seats) }
{
    match Field::make(alloc, decider, world, lists) {
        Ok(made) => Ok(made),
        Err(_) => Err(Fail::from("no field")),
    }
}

/// The seat of the least number that is there, which is to be this caller's, before its first turn.
pub fn seat_of<D: Decider, W: Manner>(
    field: &Field<'_, D, W>,
    seats: &mut Seats<D, W>,
    caller: u8,
) -> Result<Seat<D, W>, Fail>
    requires { AreOf field.now seats.old }
    ensures rest { IfOk result (λ seat. AreOf field.now seats.new) }
    ensures seat { IfOk result (λ seat. IsOf field.now seat) }
    ensures first { IfOk result (λ seat. IsFirst seats.old.seats seat
        × (seats.new ≡ record seats.old { seats = slice_set seats.old.seats (number_in seat) None })) }
{
    match seats.take() {
        None => Err(Fail::from("no seat is left")),
        Some(seat) => {
            if seat.caller() != caller || seat.next_turn() != 0 {
                return Err(Fail::from("another seat"));
            }
            Ok(seat)
        }
    }
}

/// The whole zone of the seat's next turn is held, and its change was decided.
pub fn decided<D: Decider>(
    field: &Field<'_, D>,
    lists: &Lists,
    seat: Seat<D>,
) -> Result<(Claimed<D>, Change), Fail>
    requires of { IsOf field.now seat }
    requires lists { field.now.terms.lists ≡ lists.now }
    ensures of { IfOk result (λ got. IsOf field.now got.0) }
    ensures same { IfOk result (λ got. number_in got.0 ≡ number_in seat) }
    ensures takes { IfOk result (λ got. IsToTake got.0 got.1) }
{
    let turn = seat.next_turn();
    let caller = seat.caller();
    if caller >= lists.callers() || turn >= lists.turns() {
        return Err(Fail::from("no turn is left"));
    }
    match try_claim(seat, field, turn, lists.bot(caller, turn)) {
        Err(_) => Err(Fail::from("a cell is held")),
        Ok(claimed) => match field.decider().decide(claimed.found()) {
            Verdict::Change(change) => Ok((claimed, change)),
            _ => Err(Fail::from("no change")),
        },
    }
}
