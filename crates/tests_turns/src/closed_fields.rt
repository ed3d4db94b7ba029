ghost use Rattle.std.specs.Prelude.{◌≡◌, ◌≤◌, length, map, is_some, IfOk, IsSome, OnOk};
ghost use Rattle.std.specs.List.{All};
ghost use Rattle.amoebot_state.specs.Configs.{bot_at};
ghost use Rattle.amoebot_state.specs.Steps.{Run};
ghost use Rattle.claim_core.specs.Good.{AreMarks, Order, SoFar};
ghost use Rattle.claim_core.specs.Turns.{MarkLists};
ghost use Rattle.claim_rule.specs.Seating.{AreOf};
ghost use Rattle.claim_rule.specs.Tokens.{IsOf, number_in};

use crate::fixtures::{Counter, are_entries, turn_of};
use crate::machine::{is_left, is_marked, machine_leaves};
use crate::meetings::have_marks;
use amoebot_state::{Decider, World};
use claim_core::{Journal, Lists, Mark, Marks};
use claim_rule::{Field, Seat, Seats};
use small_worlds::{Marker, lists_of, standing, world_in};
use std::alloc::Global;
use std::process::Abort;
use std::sync::Wait;
use std::test::Fail;
use tests_claims::field_of;

/// Makes all turns of the seat, with the marks that are expected. In each the gate is called.
fn turns_of<R: Wait + Abort, D: Decider>(
    rt: &R,
    field: &Field<'_, D>,
    lists: &Lists,
    expected: &Marks,
    mut seat: Seat<D>,
) -> Result<Seat<D>, Fail>
    requires of { IsOf field.now seat }
    requires lists { field.now.terms.lists ≡ lists.now }
    ensures of { IfOk result (λ after. IsOf field.now after) }
    ensures same { IfOk result (λ after. number_in after ≡ number_in seat) }
{
    let gate = Counter::new();
    for _turn in 0..lists.turns() {
        let (after, answer) = turn_of(rt, field, lists, &gate, seat)?;
        is_marked(rt, expected, &answer)?;
        seat = after;
    }
    assert!(rt; seat.next_turn() == lists.turns() && gate.calls() == u64::from(lists.turns()));
    Ok(seat)
}

/// So many callers make all their turns, one caller after another, and their seats are given back.
fn after_turns<R: Wait + Abort, D: Decider>(
    rt: &R,
    field: &Field<'_, D>,
    lists: &Lists,
    expected: &Marks,
    seats: &mut Seats<D>,
    callers: u8,
) -> Result<(), Fail>
    requires of { AreOf field.now seats.old }
    requires lists { field.now.terms.lists ≡ lists.now }
    ensures of { OnOk result (AreOf field.now seats.new) }
    ensures there { OnOk result (map is_some seats.new.seats ≡ map is_some seats.old.seats) }
{
    if callers == 0 {
        return Ok(());
    }
    match seats.take() {
        None => Err(Fail::from("no seat is left")),
        Some(seat) => {
            let seat = turns_of(rt, field, lists, expected, seat)?;
            after_turns(rt, field, lists, expected, seats, callers - 1)?;
            seats.give(seat);
            Ok(())
        }
    }
}

/// What the field leaves once so many callers have made all their turns, and the others none.
/// It is a run of the model from the first world, in the callers' order,
/// and there are right marks for it.
fn closed<R: Wait + Abort, D: Decider>(
    rt: &R,
    field: Field<'_, D>,
    lists: &Lists,
    expected: &Marks,
    mut seats: Seats<D>,
    callers: u8,
) -> Result<(World, Journal), Fail>
    requires of { AreOf field seats }
    requires lists { field.terms.lists ≡ lists.now }
    requires all { All (λ seat. IsSome seat) seats.seats }
    ensures run { IfOk result (λ left. let z = field.entry.terms in
        Run (D.verdict z.decider) z.world left.1.entries left.0) }
    ensures order { IfOk result (λ left. Order field.entry.terms.lists left.1.entries) }
    ensures marks { IfOk result (λ left. (marks : MarkLists) × (let z = field.entry.terms in
        AreMarks SoFar (D.verdict z.decider) z.world z.lists left.1.entries marks)) }
{
    after_turns(rt, &field, lists, expected, &mut seats, callers)?;
    Ok(field.close(seats))
}

/// The lists of four callers.
static LISTS: [&[u16]; 4] = [&[0], &[1, 0], &[0, 2], &[2]];

/// How many steps each of them makes in all.
static STEPS: [(u8, u8); 4] = [(0, 39), (1, 39), (2, 39), (3, 38)];

/// Their marks, where one makes its turns after another.
static MARKS: [&[Mark]; 4] = [
    &[Mark::Done { place: 0 }, Mark::Idle { place: 1 }],
    &[Mark::Done { place: 1 }, Mark::Idle { place: 2 }],
    &[Mark::Idle { place: 2 }, Mark::Done { place: 2 }],
    &[Mark::Idle { place: 3 }, Mark::Idle { place: 3 }],
];

/// What a field over the world leaves once so many callers have made all their turns.
fn left_after<R: Wait + Abort>(
    rt: &R,
    alloc: Global,
    world: World,
    lists: &Lists,
    expected: &Marks,
    callers: u8,
) -> Result<(World, Journal), Fail>
    requires some { 1 ≤ length lists.now.ids }
    requires bots { All (All (λ id. IsSome (bot_at world id))) lists.now.ids }
{
    let (field, seats) = field_of(alloc, &Marker, world, lists)?;
    closed(rt, field, lists, expected, seats, callers)
}

/// Four callers, of which so many make all their turns: the field leaves these entries then,
/// and what the machine leaves by the same steps once all have made them.
fn closes_after<R: Wait + Abort>(
    rt: &R,
    alloc: Global,
    callers: u8,
    entries: &[(u8, u32, u16)],
) -> Result<(), Fail> {
    let bots = &[standing(2, 3, 0), standing(3, 3, 0), standing(6, 6, 0)];
    let world = world_in(alloc, 10, 10, bots)?;
    let lists = lists_of(alloc, 2, &world, &LISTS)?;
    let report = machine_leaves(alloc, &Marker, &world, &lists, &STEPS)?;
    assert!(rt; have_marks(&report.turns, &MARKS));
    let (last, journal) = left_after(rt, alloc, world, &lists, &report.turns, callers)?;
    are_entries(rt, &journal, entries);
    if callers == 4 {
        is_left(rt, &report, &last, &journal);
    }
    Ok(())
}

static ENTRIES: [(u8, &[(u8, u32, u16)]); 5] = [
    (0, &[]),
    (1, &[(0, 0, 0)]),
    (2, &[(0, 0, 0), (1, 0, 1)]),
    (3, &[(0, 0, 0), (1, 0, 1), (2, 1, 2)]),
    (4, &[(0, 0, 0), (1, 0, 1), (2, 1, 2)]),
];

#[test]
fn a_field_is_closed_after_the_turns_of_each_caller(rt: HostRuntime) -> Result<(), Fail> {
    for (callers, entries) in &ENTRIES {
        closes_after(&rt, rt.alloc(), *callers, entries)?;
    }
    Ok(())
}
