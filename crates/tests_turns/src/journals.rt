ghost use Rattle.std.specs.Prelude.{◌≡◌, IfOk};
ghost use Rattle.claim_rule.specs.Seating.{AreOf};
ghost use Rattle.claim_rule.specs.Tokens.{IsOf};
ghost use Rattle.claim_rule.specs.Settling.{IsToTake};

use amoebot_state::Change;
use claim_core::Lists;
use claim_rule::{Claimed, Field, Seat, Seats, Settled, Taken, store, take};
use node_claims::release_settled;
use small_worlds::{Marker, lists_of, standing, world_in};
use std::process::Abort;
use std::test::Fail;
use tests_claims::{decided, field_of, seat_of};

/// The journal is found free, and taken.
fn taken_by(
    field: &Field<'_, Marker>,
    claimed: Claimed<Marker>,
    change: Change,
) -> Result<Taken<Marker>, Fail>
    requires of { IsOf field.now claimed }
    requires takes { IsToTake claimed change }
    ensures { IfOk result (λ taken. IsOf field.now taken) }
{
    match take(claimed, field, change) {
        Ok(taken) => Ok(taken),
        Err(_) => Err(Fail::from("the journal is taken")),
    }
}

/// The journal is found taken.
fn refused(
    field: &Field<'_, Marker>,
    claimed: Claimed<Marker>,
    change: Change,
) -> Result<(Claimed<Marker>, Change), Fail>
    requires of { IsOf field.now claimed }
    requires takes { IsToTake claimed change }
    ensures of { IfOk result (λ back. IsOf field.now back.0) }
    ensures takes { IfOk result (λ back. IsToTake back.0 back.1) }
{
    match take(claimed, field, change) {
        Ok(_) => Err(Fail::from("the journal is free")),
        Err(back) => Ok(back),
    }
}

/// The entry is stored at this place, of the caller's first turn.
fn stored(
    rt: &impl Abort,
    field: &Field<'_, Marker>,
    taken: Taken<Marker>,
    caller: u8,
    place: u32,
) -> Settled<Marker>
    requires { IsOf field.now taken }
    ensures { IsOf field.now result }
{
    let (settled, receipt) = store(taken, field);
    assert!(rt; receipt.caller() == caller && receipt.turn() == 0 && receipt.place() == place);
    settled
}

/// Caller 1 finds the journal taken until caller 0 has stored its entry. The zones are apart.
fn take_turns(
    rt: &impl Abort,
    field: &Field<'_, Marker>,
    lists: &Lists,
    zero: Seat<Marker>,
    one: Seat<Marker>,
) -> Result<(), Fail>
    requires zero { IsOf field.now zero }
    requires one { IsOf field.now one }
    requires lists { field.now.terms.lists ≡ lists.now }
{
    let (claimed, change) = decided(field, lists, zero)?;
    let (second, second_change) = decided(field, lists, one)?;
    let taken = taken_by(field, claimed, change)?;
    second_follows(rt, field, taken, second, second_change)
}

/// Caller 1, which has decided, finds the journal taken,
/// and takes it once caller 0 has stored its entry.
fn second_follows(
    rt: &impl Abort,
    field: &Field<'_, Marker>,
    taken: Taken<Marker>,
    second: Claimed<Marker>,
    change: Change,
) -> Result<(), Fail>
    requires taken { IsOf field.now taken }
    requires second { IsOf field.now second }
    requires takes { IsToTake second change }
{
    let (second, change) = refused(field, second, change)?;
    let settled = stored(rt, field, taken, 0, 0);
    let taken = taken_by(field, second, change)?;
    let zero = release_settled(settled, field);
    let one = release_settled(stored(rt, field, taken, 1, 1), field);
    assert!(rt; zero.next_turn() == 1 && one.next_turn() == 1);
    Ok(())
}

/// The same with the two seats, which nobody has taken yet.
fn take_seats(
    rt: &impl Abort,
    field: &Field<'_, Marker>,
    lists: &Lists,
    seats: &mut Seats<Marker>,
) -> Result<(), Fail>
    requires of { AreOf field.now seats.old }
    requires lists { field.now.terms.lists ≡ lists.now }
{
    let zero = seat_of(field, seats, 0)?;
    let one = seat_of(field, seats, 1)?;
    take_turns(rt, field, lists, zero, one)
}

#[test]
fn the_journal_is_found_taken_until_the_other_caller_has_committed(
    rt: HostRuntime,
) -> Result<(), Fail> {
    let world = world_in(rt.alloc(), 12, 12, &[standing(2, 2, 0), standing(8, 8, 0)])?;
    let lists = lists_of(rt.alloc(), 1, &world, &[&[0], &[1]])?;
    let (field, mut seats) = field_of(rt.alloc(), &Marker, world, &lists)?;
    take_seats(&rt, &field, &lists, &mut seats)
}
