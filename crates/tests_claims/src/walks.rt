ghost use Rattle.std.specs.Prelude.{◌≡◌, ◌<◌, ◌≤◌, length, IfOk, IsSome};
ghost use Rattle.std.specs.List.{All};
ghost use Rattle.amoebot_state.specs.Configs.{bot_at};
ghost use Rattle.claim_core.specs.declared.state.Phase.TheVariants.{Refusing};
ghost use Rattle.claim_rule.specs.Seating.{AreOf};
ghost use Rattle.claim_rule.specs.Tokens.{IsOf, doing};
ghost use Rattle.tests_claims.specs.Walks.{IsWalker};

use crate::field_fixtures::{begun, whole};
use crate::fields::{field_of, seat_of};
use amoebot_state::{CellName, World};
use claim_core::{Core, Lists, Look, Mark, Phase};
use claim_rule::{
    ByTicket, Field, Freeing, Held, Manner, Seats, Stopped, Tag, end, free_last, look, refuse, win,
};
use node_claims::release;
use small_worlds::{Idler, lists_of, standing, world_in};
use std::alloc::Global;
use std::process::Abort;
use std::test::Fail;

/// How far a caller has come in its turn: it holds cells of its zone, or was refused this one,
/// which had this tag.
type Walker<W> = Result<Held<Idler, W>, (Stopped<Idler, W>, CellName, Tag)>;

/// Whether the caller has a cell to try.
fn claims<W: Manner>(field: &Field<'_, Idler, W>, walker: &Walker<W>) -> bool
    requires { IsWalker field.now walker.now }
{
    match walker {
        Ok(held) => held.next(field).is_some(),
        Err(_) => false,
    }
}

/// One try to claim the next cell, if there is one.
fn tried<W: Manner>(field: &Field<'_, Idler, W>, walker: Walker<W>) -> Walker<W>
    requires { IsWalker field.now walker }
    ensures { IsWalker field.now result }
{
    match walker {
        Err(stopped) => Err(stopped),
        Ok(held) => match held.next(field) {
            None => Ok(held),
            Some(cell) => match win(held, field, cell) {
                Ok(more) => Ok(more),
                Err((stopped, tag)) => Err((stopped, cell, tag)),
            },
        },
    }
}

/// The rest of the turn, of at most four cells, and its mark.
fn finished<W: Manner>(field: &Field<'_, Idler, W>, mut walker: Walker<W>) -> Result<Mark, Fail>
    requires { IsWalker field.now walker }
{
    for _cell in 0..4 {
        walker = tried(field, walker);
    }
    match walker {
        Ok(held) => looked(field, held),
        Err((stopped, cell, tag)) => Ok(refused(field, stopped, cell, tag)),
    }
}

/// The marks of both.
fn both_finished<W: Manner>(
    field: &Field<'_, Idler, W>,
    zero: Walker<W>,
    one: Walker<W>,
) -> Result<(Mark, Mark), Fail>
    requires zero { IsWalker field.now zero }
    requires one { IsWalker field.now one }
{
    let zero = finished(field, zero)?;
    Ok((zero, finished(field, one)?))
}

/// The mark of a turn that holds its whole zone, which is freed.
fn looked<W: Manner>(field: &Field<'_, Idler, W>, held: Held<Idler, W>) -> Result<Mark, Fail>
    requires { IsOf field.now held }
{
    let mut claimed = whole(field, held)?;
    let seen = look(&mut claimed, field);
    release(claimed, field);
    Ok(Mark::Idle {
        place: seen.place(),
    })
}

/// The mark of a turn that was refused a cell, and that frees what it won.
fn refused<W: Manner>(
    field: &Field<'_, Idler, W>,
    stopped: Stopped<Idler, W>,
    cell: CellName,
    tag: Tag,
) -> Mark
    requires of { IsOf field.now stopped }
    requires phase { (doing stopped).phase ≡ Refusing cell tag }
{
    let (freeing, refused) = refuse(stopped, field, cell, tag);
    free(field, freeing);
    Mark::Busy {
        cell: refused.cell(),
        by_caller: refused.by_caller(),
        by_turn: refused.by_turn(),
        by_bot: refused.by_bot(),
        place: refused.place(),
    }
}

/// Frees all cells that are held.
fn free<W: Manner>(field: &Field<'_, Idler, W>, mut freeing: Freeing<Idler, W>)
    requires { IsOf field.now freeing }
{
    while freeing.count() > 0 {
        freeing = free_last(freeing, field);
    }
    end(freeing);
}

/// A caller of the core stands where the walker does: it holds as many cells,
/// and has a cell to try, or holds its whole zone, or found the same tag at the same cell.
fn stands<W: Manner>(
    rt: &impl Abort,
    field: &Field<'_, Idler, W>,
    core: &Core<'_, Idler>,
    caller: u8,
    walker: &Walker<W>,
)
    requires walker { IsWalker field.now walker.now }
    requires callers { length core.now.state.callers ≡ 2 }
    requires caller { caller < 2 }
{
    let phase = core.phase(caller);
    match walker {
        Ok(held) => {
            assert!(rt; core.held(caller).len() == usize::from(held.count()));
            assert!(rt; is_at(phase, held.next(field)), "caller {caller}");
        }
        Err((_, cell, tag)) => assert!(rt; was_refused(phase, *cell, tag), "caller {caller}"),
    }
}

/// Whether the caller is to try a cell, or, where there is none, holds its whole zone.
fn is_at(phase: &Phase, next: Option<CellName>) -> bool {
    match phase {
        Phase::Claim => next.is_some(),
        Phase::Looking(look) => *look == Look::Idle && next.is_none(),
        _ => false,
    }
}

/// Whether the caller found this tag at this cell.
fn was_refused(phase: &Phase, cell: CellName, tag: &Tag) -> bool {
    match phase {
        Phase::Refusing(at, number) => *at == cell && *number == number_of(tag),
        _ => false,
    }
}

/// The number that the core has for a tag.
fn number_of(tag: &Tag) -> u64 {
    let turns = u64::from(tag.turn()) + 65_536 * u64::from(tag.caller());
    1 + u64::from(tag.bot()) + 4096 * turns
}

/// Makes so many steps of a caller.
fn steps(core: &mut Core<'_, Idler>, caller: u8, number: u32)
    requires callers { length core.old.state.callers ≡ 2 }
    requires caller { caller < 2 }
    ensures { length core.new.state.callers ≡ 2 }
{
    for _step in 0..number {
        core.step(caller);
    }
}

/// Two callers beside each other make the claim steps of this word,
/// of which there are eight at most, the lowest bit first: 0 for caller 0, 1 for caller 1.
/// The core makes the same steps.
fn walked<W: Manner>(
    field: &Field<'_, Idler, W>,
    core: &mut Core<'_, Idler>,
    mut walkers: (Walker<W>, Walker<W>),
    count: u32,
    word: u32,
) -> (Walker<W>, Walker<W>)
    requires walkers { IsWalker field.now walkers.0 × IsWalker field.now walkers.1 }
    requires callers { length core.old.state.callers ≡ 2 }
    requires few { count ≤ 8 }
    ensures walkers { IsWalker field.now result.0 × IsWalker field.now result.1 }
    ensures callers { length core.new.state.callers ≡ 2 }
{
    for step in 0..count {
        walkers = walked_one(field, core, walkers, word >> step & 1);
    }
    walkers
}

/// One claim step of caller 0, or of caller 1.
fn walked_one<W: Manner>(
    field: &Field<'_, Idler, W>,
    core: &mut Core<'_, Idler>,
    walkers: (Walker<W>, Walker<W>),
    caller: u32,
) -> (Walker<W>, Walker<W>)
    requires walkers { IsWalker field.now walkers.0 × IsWalker field.now walkers.1 }
    requires callers { length core.old.state.callers ≡ 2 }
    ensures walkers { IsWalker field.now result.0 × IsWalker field.now result.1 }
    ensures callers { length core.new.state.callers ≡ 2 }
{
    let (zero, one) = walkers;
    if caller == 0 {
        steps(core, 0, u32::from(claims(field, &zero)));
        (tried(field, zero), one)
    } else {
        steps(core, 1, u32::from(claims(field, &one)));
        (zero, tried(field, one))
    }
}

/// The core has these marks, of the one turn of caller 0 and of caller 1, once both have ended.
fn has_marks(rt: &impl Abort, core: Core<'_, Idler>, zero: Mark, one: Mark) -> Result<(), Fail> {
    if !core.ended() {
        return Err(Fail::from("a turn is left"));
    }
    let marks = core.report().turns;
    if marks.callers() != 2 || marks.count(0) != 1 || marks.count(1) != 1 {
        return Err(Fail::from("one mark for each"));
    }
    assert!(rt; marks.mark(0, 0) == zero);
    assert!(rt; marks.mark(1, 0) == one);
    Ok(())
}

/// The two callers make the claim steps of this word.
/// Then caller 0 finishes its turn, and then caller 1.
/// The same steps of the core leave the same marks.
fn agrees<W: Manner>(
    rt: &impl Abort,
    field: &Field<'_, Idler, W>,
    mut core: Core<'_, Idler>,
    walkers: (Walker<W>, Walker<W>),
    count: u32,
    word: u32,
) -> Result<(), Fail>
    requires walkers { IsWalker field.now walkers.0 × IsWalker field.now walkers.1 }
    requires callers { length core.state.callers ≡ 2 }
    requires few { count ≤ 8 }
{
    let (zero, one) = walked(field, &mut core, walkers, count, word);
    stands(rt, field, &core, 0, &zero);
    stands(rt, field, &core, 1, &one);
    let (zero, one) = both_finished(field, zero, one)?;
    steps(&mut core, 0, 12);
    steps(&mut core, 1, 12);
    has_marks(rt, core, zero, one)
}

/// The world of two amoebots beside each other and of no further node,
/// and one turn for each of them.
/// The two cells of nodes and the two of bodies are the zone of each.
fn two_beside(alloc: Global) -> Result<(World, Lists), Fail>
    ensures callers { IfOk result (λ made. length made.1.ids ≡ 2) }
    ensures bots { IfOk result (λ made. All (All (λ id. IsSome (bot_at made.0 id))) made.1.ids) }
{
    let world = world_in(alloc, 2, 1, &[standing(0, 0, 0), standing(1, 0, 0)])?;
    let lists = lists_of(alloc, 1, &world, &[&[0], &[1]])?;
    Ok((world, lists))
}

/// A core over that world.
fn core_of(alloc: Global) -> Result<Core<'static, Idler>, Fail>
    ensures { IfOk result (λ core. length core.state.callers ≡ 2) }
{
    let (world, lists) = two_beside(alloc)?;
    match Core::make(alloc, &Idler, world, &lists) {
        Ok(core) => Ok(core),
        Err(_) => Err(Fail::from("no core")),
    }
}

/// The same with the two seats, which nobody has taken yet, and a core of its own.
fn seated<W: Manner>(
    rt: &impl Abort,
    alloc: Global,
    field: &Field<'_, Idler, W>,
    lists: &Lists,
    seats: &mut Seats<Idler, W>,
    steps: (u32, u32),
) -> Result<(), Fail>
    requires of { AreOf field.now seats.old }
    requires lists { field.now.terms.lists ≡ lists.now }
    requires few { steps.0 ≤ 8 }
{
    let zero = started(field, lists, seats, 0)?;
    let one = started(field, lists, seats, 1)?;
    let (count, word) = steps;
    agrees(rt, field, core_of(alloc)?, (zero, one), count, word)
}

/// The first turn of this caller, whose seat is the next one, has begun.
fn started<W: Manner>(
    field: &Field<'_, Idler, W>,
    lists: &Lists,
    seats: &mut Seats<Idler, W>,
    caller: u8,
) -> Result<Walker<W>, Fail>
    requires of { AreOf field.now seats.old }
    requires lists { field.now.terms.lists ≡ lists.now }
    ensures walker { IfOk result (λ walker. IsWalker field.now walker) }
    ensures rest { IfOk result (λ walker. AreOf field.now seats.new) }
{
    let seat = seat_of(field, seats, caller)?;
    Ok(Ok(begun(field, lists, seat)?))
}

/// How the callers commit.
#[derive(Clone, Copy)]
enum Way {
    ByJournal,
    ByTicket,
}

/// The same over a field of its own.
fn agree(rt: &impl Abort, alloc: Global, way: Way, count: u32, word: u32) -> Result<(), Fail>
    requires { count ≤ 8 }
{
    let (world, lists) = two_beside(alloc)?;
    match way {
        Way::ByJournal => seated_in(rt, alloc, world, &lists, (count, word)),
        Way::ByTicket => seated_by_ticket(rt, alloc, world, &lists, (count, word)),
    }
}

/// The same over a field of this world.
fn seated_in(
    rt: &impl Abort,
    alloc: Global,
    world: World,
    lists: &Lists,
    steps: (u32, u32),
) -> Result<(), Fail>
    requires some { 1 ≤ length lists.now.ids }
    requires bots { All (All (λ id. IsSome (bot_at world id))) lists.now.ids }
    requires few { steps.0 ≤ 8 }
{
    let (field, mut seats) = field_of(alloc, &Idler, world, lists)?;
    seated(rt, alloc, &field, lists, &mut seats, steps)
}

/// A field on which commits draw their places, over the world, with a seat for each caller.
fn ticket_field_of<'d>(
    alloc: Global,
    world: World,
    lists: &'d Lists,
) -> Result<(Field<'d, Idler, ByTicket>, Seats<Idler, ByTicket>), Fail>
    requires some { 1 ≤ length lists.now.ids }
    requires bots { All (All (λ id. IsSome (bot_at world id))) lists.now.ids }
    ensures lists { IfOk result (λ made. made.0.terms.lists ≡ lists.now) }
    ensures of { IfOk result (λ made. AreOf made.0 made.1) }
    ensures all { IfOk result (λ made. All (λ seat. IsSome seat) made.1.seats) }
{
    match Field::make_tickets(alloc, &Idler, world, lists) {
        Ok(made) => Ok(made),
        Err(_) => Err(Fail::from("no field")),
    }
}

/// The same over a field of this world on which commits draw their places,
/// so that a node is claimed as a body is.
fn seated_by_ticket(
    rt: &impl Abort,
    alloc: Global,
    world: World,
    lists: &Lists,
    steps: (u32, u32),
) -> Result<(), Fail>
    requires some { 1 ≤ length lists.now.ids }
    requires bots { All (All (λ id. IsSome (bot_at world id))) lists.now.ids }
    requires few { steps.0 ≤ 8 }
{
    let (field, mut seats) = ticket_field_of(alloc, world, lists)?;
    seated(rt, alloc, &field, lists, &mut seats, steps)
}

/// Every interleaving of the claim steps of two zones of the same four cells,
/// and every beginning of one.
fn each_agrees(rt: &impl Abort, alloc: Global, way: Way) -> Result<(), Fail> {
    for count in 0u32..9 {
        for word in 0..1u32 << count {
            agree(rt, alloc, way, count, word)?;
        }
    }
    Ok(())
}

#[test]
fn each_interleaving_of_claims_is_that_of_the_core(rt: HostRuntime) -> Result<(), Fail> {
    each_agrees(&rt, rt.alloc(), Way::ByJournal)
}

#[test]
fn each_interleaving_of_claims_by_ticket_is_that_of_the_core(rt: HostRuntime) -> Result<(), Fail> {
    each_agrees(&rt, rt.alloc(), Way::ByTicket)
}
