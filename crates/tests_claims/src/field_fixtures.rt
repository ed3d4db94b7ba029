ghost use Rattle.std.specs.Prelude.{◌≡◌, IfOk, IfErr, OnOk};
ghost use Rattle.claim_rule.specs.Tokens.{IsOf, IsToLook, number_in};

use amoebot_state::{CellName, Decider};
use claim_core::Lists;
use claim_rule::{Claimed, Field, Held, Manner, Refused, Seat, Seats, begin, seal, win};
use node_claims::{place, release, try_claim};
use small_worlds::Idler;
use std::process::Abort;
use std::test::Fail;

/// No seat is left.
pub fn none_left(seats: &mut Seats<Idler>) -> Result<(), Fail>
    ensures { OnOk result (seats.new ≡ seats.old) }
{
    match seats.take() {
        None => Ok(()),
        Some(_) => Err(Fail::from("a seat is left")),
    }
}

/// The seat's next turn begins.
pub fn begun<D: Decider, W: Manner>(
    field: &Field<'_, D, W>,
    lists: &Lists,
    seat: Seat<D, W>,
) -> Result<Held<D, W>, Fail>
    requires of { IsOf field.now seat }
    requires lists { field.now.terms.lists ≡ lists.now }
    ensures of { IfOk result (λ held. IsOf field.now held) }
    ensures same { IfOk result (λ held. number_in held ≡ number_in seat) }
{
    let turn = seat.next_turn();
    let caller = seat.caller();
    if caller >= lists.callers() || turn >= lists.turns() {
        return Err(Fail::from("no turn is left"));
    }
    Ok(begin(seat, turn, lists.bot(caller, turn)))
}

/// Claims the zone of the seat's next turn.
pub fn claim(
    field: &Field<'_, Idler>,
    lists: &Lists,
    seat: Seat<Idler>,
) -> Result<Result<Claimed<Idler>, (Seat<Idler>, Refused)>, Fail>
    requires of { IsOf field.now seat }
    requires lists { field.now.terms.lists ≡ lists.now }
    ensures of { IfOk result (λ answer. IfErr answer (λ by. IsOf field.now by.0)) }
    ensures same { IfOk result (λ answer. IfErr answer (λ by. number_in by.0 ≡ number_in seat)) }
{
    let turn = seat.next_turn();
    let caller = seat.caller();
    if caller >= lists.callers() || turn >= lists.turns() {
        return Err(Fail::from("no turn is left"));
    }
    Ok(try_claim(seat, field, turn, lists.bot(caller, turn)))
}

/// Claims these cells, which are the next ones of the zone.
pub fn won<D: Decider>(
    field: &Field<'_, D>,
    mut held: Held<D>,
    cells: &[CellName],
) -> Result<Held<D>, Fail>
    requires { IsOf field.now held }
    ensures of { IfOk result (λ more. IsOf field.now more) }
    ensures same { IfOk result (λ more. number_in more ≡ number_in held) }
{
    for cell in cells {
        held = won_one(field, held, *cell)?;
    }
    Ok(held)
}

fn won_one<D: Decider>(field: &Field<'_, D>, held: Held<D>, cell: CellName) -> Result<Held<D>, Fail>
    requires { IsOf field.now held }
    ensures of { IfOk result (λ more. IsOf field.now more) }
    ensures same { IfOk result (λ more. number_in more ≡ number_in held) }
{
    match held.next(field) {
        Some(next) if next == cell => match win(held, field, next) {
            Ok(more) => Ok(more),
            Err(_) => Err(Fail::from("the cell is held")),
        },
        _ => Err(Fail::from("another cell is next, or none")),
    }
}

/// The whole zone is held.
pub fn whole<W: Manner>(
    field: &Field<'_, Idler, W>,
    held: Held<Idler, W>,
) -> Result<Claimed<Idler, W>, Fail>
    requires { IsOf field.now held }
    ensures looks { IfOk result (λ claimed. IsOf field.now claimed × IsToLook claimed) }
    ensures same { IfOk result (λ claimed. number_in claimed ≡ number_in held) }
{
    if held.next(field).is_some() {
        return Err(Fail::from("a cell is left"));
    }
    Ok(seal(held))
}

/// The turn gets its mark, which is to be this caller's in this turn, at 0 entries;
/// and its zone is freed.
pub fn freed(
    rt: &impl Abort,
    field: &Field<'_, Idler>,
    mut claimed: Claimed<Idler>,
    caller: u8,
    turn: u32,
) -> Seat<Idler>
    requires { IsOf field.now claimed × IsToLook claimed }
    ensures of { IsOf field.now result }
    ensures same { number_in result ≡ number_in claimed }
{
    let seen = place(&mut claimed, field);
    assert!(rt; seen.caller() == caller && seen.turn() == turn && seen.place() == 0);
    release(claimed, field)
}

/// The zone of the seat's next turn is this one, cell by cell.
pub fn claimed_whole(
    rt: &impl Abort,
    field: &Field<'_, Idler>,
    lists: &Lists,
    seat: Seat<Idler>,
    zone: &[CellName],
) -> Result<Claimed<Idler>, Fail>
    requires of { IsOf field.now seat }
    requires lists { field.now.terms.lists ≡ lists.now }
    ensures of { IfOk result (λ claimed. IsOf field.now claimed × IsToLook claimed) }
    ensures same { IfOk result (λ claimed. number_in claimed ≡ number_in seat) }
{
    let held = won(field, begun(field, lists, seat)?, zone)?;
    assert!(rt; usize::from(held.count()) == zone.len());
    whole(field, held)
}
