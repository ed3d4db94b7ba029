//! What the machine of `claim_core` leaves after the steps that the callers of a field make.
ghost use Rattle.std.specs.Prelude.{◌≡◌, length, IsSome};
ghost use Rattle.std.specs.List.{All};
ghost use Rattle.amoebot_state.specs.Configs.{bot_at};

use activation::Turn;
use amoebot_state::{Decider, Entry, World};
use claim_core::{Core, Journal, Lists, Mark, Marks, Report};
use std::alloc::Global;
use std::process::Abort;
use std::test::Fail;

/// What is left after these steps, so many of one caller at a time, with which all callers end.
pub fn machine_leaves<D: Decider>(
    alloc: Global,
    decider: &D,
    world: &World,
    lists: &Lists,
    steps: &[(u8, u8)],
) -> Result<Report, Fail>
    requires { All (All (λ id. IsSome (bot_at world.now id))) lists.now.ids }
{
    let mut core = Core::make(alloc, decider, world.copy(alloc)?, lists)?;
    step_callers(&mut core, lists.callers(), steps)?;
    if !core.ended() {
        return Err(Fail::from("a caller has turns left"));
    }
    Ok(core.report())
}

fn step_callers<D: Decider>(
    core: &mut Core<'_, D>,
    callers: u8,
    steps: &[(u8, u8)],
) -> Result<(), Fail>
    requires { length core.old.state.callers ≡ callers }
{
    for (caller, count) in steps {
        if *caller >= callers {
            return Err(Fail::from("no such caller"));
        }
        for _step in 0..*count {
            core.step(*caller);
        }
    }
    Ok(())
}

/// The answer's mark is the one that is expected of its turn.
pub fn is_marked(rt: &impl Abort, expected: &Marks, answer: &Turn) -> Result<(), Fail> {
    has_mark(rt, expected, answer.caller(), answer.turn(), answer.mark())
}

/// This mark is the one that is expected of a caller's turn.
pub fn has_mark(
    rt: &impl Abort,
    expected: &Marks,
    caller: u8,
    turn: u32,
    mark: Mark,
) -> Result<(), Fail> {
    if caller >= expected.callers() || turn >= expected.count(caller) {
        return Err(Fail::from("no mark"));
    }
    assert!(rt; mark == expected.mark(caller, turn));
    Ok(())
}

/// The last world and the journal are those of the report.
pub fn is_left(rt: &impl Abort, report: &Report, last: &World, journal: &Journal) {
    assert!(rt; last.same(&report.world) && journal.first().same(report.journal.first()));
    assert!(rt; journal.entries().len() == report.journal.entries().len());
    for (entry, expected) in journal.entries().iter().zip(report.journal.entries()) {
        is_same(rt, entry, expected);
    }
}

fn is_same(rt: &impl Abort, entry: &Entry, expected: &Entry) {
    assert!(rt;
        entry.caller == expected.caller && entry.turn == expected.turn && entry.bot == expected.bot
    );
    assert!(rt; entry.action == expected.action && entry.moved == expected.moved);
    assert!(rt; entry.patch.triples() == expected.patch.triples());
}
