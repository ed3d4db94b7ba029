//! Runs of small documents, with the texts that they leave.

ghost use Rattle.std.specs.Prelude.{◌<◌, ◌≤◌, length, IfOk};
ghost use Rattle.std.specs.List.{All};
ghost use Rattle.amoebot_state.specs.Limits.{most_bots, most_vars};
ghost use Rattle.amoebot_state.specs.Refusals.{IsBotInRange};

use amoebot_state::{Bot, Decider, End, Entry, NoMemory, PlainEntry, Port, World};
use claim_core::Report;
use commands::print_election;
use document_answers::{
    RoundCount, compare, count_rounds, follow_all, print_agrees, print_differs, print_report,
    print_rounds, run_interleaved,
};
use schedule_text::{Schedule, read_schedule};
use serial_model::Differs;
use small_worlds::{Expander, Marker, lists_of, spread, standing, world_of};
use std::alloc::Global;
use std::test::Fail;
use text_tokens::{Text, Tokens};

/// The program that expands each amoebot through the port `head 0`.
const EXPANDER: Expander = Expander {
    port: Port {
        end: End::Head,
        dir: 0,
    },
};

/// The schedule that is read from a text, of callers below a number.
fn schedule_of(alloc: Global, callers: u8, text: &str) -> Result<Schedule, Fail>
    requires { length text.now < 1000 }
    ensures { IfOk result (λ schedule. All (λ caller. caller < callers) schedule) }
{
    let schedule = read_schedule(alloc, &mut Tokens::new(text.as_bytes()), callers);
    Ok(schedule.ok().ok_or("a schedule")?)
}

/// What is left by the schedule and the rounds behind it.
fn interleaved<D: Decider>(
    alloc: Global,
    decider: &D,
    bots: &[Bot],
    lists: (u32, &[&[u16]]),
    schedule: &str,
) -> Result<Report, Fail>
    requires few { length bots.now ≤ most_bots }
    requires in_range { All IsBotInRange bots.now }
    requires text { length schedule.now < 1000 }
{
    let (turns, ids) = lists;
    let world = world_of(alloc, bots)?;
    let lists = lists_of(alloc, turns, &world, ids)?;
    let schedule = schedule_of(alloc, lists.callers(), schedule)?;
    Ok(run_interleaved(alloc, decider, world, &lists, &schedule)?)
}

/// The text of that report in versions 1 and 2, where each amoebot has one variable.
fn text_of<D: Decider>(
    alloc: Global,
    decider: &D,
    bots: &[Bot],
    lists: (u32, &[&[u16]]),
    schedule: &str,
) -> Result<Text, Fail>
    requires few { length bots.now ≤ most_bots }
    requires in_range { All IsBotInRange bots.now }
    requires text { length schedule.now < 1000 }
{
    let report = interleaved(alloc, decider, bots, lists, schedule)?;
    Ok(print_report(alloc, 2, &report, 1)?)
}

/// Caller 0 has its body and seven nodes when caller 1 wins its body and finds (3, 3) held.
#[test]
fn a_caller_finds_a_node_held(rt: HostRuntime) -> Result<(), Fail> {
    let text = text_of(
        rt.alloc(),
        &Marker,
        &[standing(2, 3, 0), standing(3, 3, 0)],
        (2, &[&[0], &[1]]),
        "schedule 0 times 8 1 times 4 0 times 12 1 times 20 end",
    )?;
    let expected = "journal\n\
        entry 0 0 0 0 0 none body 0 2 3 2 3 0 + 1\n\
        entry 1 1 1 1 0 none body 1 3 3 3 3 0 + 1\n\
        end\n\
        final\n\
        area 0 0 8 8\n\
        bot 2 3 2 3 0 + 1\n\
        bot 3 3 3 3 0 + 1\n\
        end\n\
        turns\n\
        turn 0 0 done 0\n\
        turn 0 1 idle 2\n\
        turn 1 0 busy spot 3 3 by 0 0 0 place 0\n\
        turn 1 1 done 1\n\
        end\n";
    assert!(rt; text.bytes() == expected.as_bytes());
    Ok(())
}

#[test]
fn two_callers_find_each_other(rt: HostRuntime) -> Result<(), Fail> {
    let text = text_of(
        rt.alloc(),
        &Marker,
        &[standing(2, 3, 0), standing(3, 3, 0)],
        (1, &[&[0], &[1]]),
        "schedule 0 times 2 1 times 6 0 end",
    )?;
    let expected = "journal\n\
        end\n\
        final\n\
        area 0 0 8 8\n\
        bot 2 3 2 3 0 + 0\n\
        bot 3 3 3 3 0 + 0\n\
        end\n\
        turns\n\
        turn 0 0 busy spot 3 3 by 1 0 1 place 0\n\
        turn 1 0 busy spot 2 3 by 0 0 0 place 0\n\
        end\n";
    assert!(rt; text.bytes() == expected.as_bytes());
    Ok(())
}

/// What is left of two amoebots far from each other, of which the second commits first.
fn far_report(alloc: Global) -> Result<Report, Fail> {
    let bots = [standing(1, 1, 0), standing(6, 6, 0)];
    interleaved(
        alloc,
        &EXPANDER,
        &bots,
        (1, &[&[0], &[1]]),
        "schedule 1 times 10 end",
    )
}

/// That report in versions 1 and 2.
static FAR: &str = "journal\n\
    entry 0 1 0 1 0 expand head 0 spot 7 6 1 body 1 7 6 6 6 0 +\n\
    entry 1 0 0 0 0 expand head 0 spot 2 1 0 body 0 2 1 1 1 0 +\n\
    end\n\
    final\n\
    area 0 0 8 8\n\
    bot 2 1 1 1 0 +\n\
    bot 7 6 6 6 0 +\n\
    end\n\
    turns\n\
    turn 0 0 done 1\n\
    turn 1 0 done 0\n\
    end\n";

/// The same in version 3.
static FAR_IN_FULL: &str = "journal\n\
    entry 0 1 0 1 0 expand head 0 spot 7 6 empty to 1 body 1 6 6 6 6 0 + to 7 6 6 6 0 +\n\
    entry 1 0 0 0 0 expand head 0 spot 2 1 empty to 0 body 0 1 1 1 1 0 + to 2 1 1 1 0 +\n\
    end\n\
    final\n\
    area 0 0 8 8\n\
    bot 2 1 1 1 0 +\n\
    bot 7 6 6 6 0 +\n\
    end\n\
    turns\n\
    turn 0 0 done 1\n\
    turn 1 0 done 0\n\
    end\n";

#[test]
fn the_version_says_whether_the_old_values_are_written(rt: HostRuntime) -> Result<(), Fail> {
    let report = far_report(rt.alloc())?;
    for (version, expected) in [(1, FAR), (2, FAR), (3, FAR_IN_FULL)] {
        let text = print_report(rt.alloc(), version, &report, 0)?;
        assert!(rt; text.bytes() == expected.as_bytes());
    }
    Ok(())
}

/// Those amoebots once so many of the two entries were made.
fn far_world(alloc: Global, entries: u32) -> Result<World, Fail> {
    let first = if entries < 2 {
        standing(1, 1, 0)
    } else {
        spread((2, 1), (1, 1), 0)
    };
    let second = if entries < 1 {
        standing(6, 6, 0)
    } else {
        spread((7, 6), (6, 6), 0)
    };
    world_of(alloc, &[first, second])
}

/// Behind how many entries the first world stands and behind how many the last one;
/// and whether both entries are a run between them.
static PLACES: [(u32, u32, Result<(), Differs>); 3] = [
    (0, 2, Ok(())),
    // The final shape is another one than the last world: the number of entries.
    (0, 0, Err(Differs { place: 2 })),
    // From the last world on the first entry is no step, since its amoebot is expanded.
    (2, 2, Err(Differs { place: 0 })),
];

fn compared(
    alloc: Global,
    start: World,
    entries: &[Entry],
    last: &World,
) -> Result<Result<(), Differs>, Fail> {
    let bots = start.bots();
    if entries.len() > 4096 || !entries.iter().all(|entry| entry.bot < bots) {
        Err("entries")?;
    }
    Ok(compare(&EXPANDER, start, entries, last))
}

#[test]
fn a_journal_agrees_or_differs(rt: HostRuntime) -> Result<(), Fail> {
    let report = far_report(rt.alloc())?;
    for (from, to, answer) in &PLACES {
        let start = far_world(rt.alloc(), *from)?;
        let last = far_world(rt.alloc(), *to)?;
        let given = compared(rt.alloc(), start, report.journal.entries(), &last)?;
        assert!(rt; given == *answer);
    }
    Ok(())
}

fn plain_of(alloc: Global, entries: &[Entry]) -> Result<Vec<PlainEntry>, Fail> {
    let mut plain = Vec::new(alloc);
    for entry in entries {
        plain.push(entry.plain())?;
    }
    Ok(plain)
}

/// What both calls say of entries without their old values, the one that keeps no entry first.
fn compared_plain(
    alloc: Global,
    start: World,
    entries: &[PlainEntry],
    last: &World,
) -> Result<(Result<(), Differs>, Result<Vec<Entry>, Differs>), Fail> {
    let bots = start.bots();
    if entries.len() > 4096 || !entries.iter().all(|entry| entry.bot < bots) {
        Err("entries")?;
    }
    let compared = compare(&EXPANDER, start.copy(alloc)?, entries, last);
    let followed = follow_all(alloc, &EXPANDER, start, entries, last)?;
    Ok((compared, followed))
}

/// Whether these are the entries of the run where there are to be some, and else differ there.
fn is_followed(
    followed: &Result<Vec<Entry>, Differs>,
    entries: &[Entry],
    answer: Result<(), Differs>,
) -> bool {
    match followed {
        Ok(made) => answer.is_ok() && have_same_patches(made.as_slice(), entries),
        Err(differs) => answer == Err(*differs),
    }
}

fn have_same_patches(made: &[Entry], entries: &[Entry]) -> bool {
    made.len() == entries.len()
        && made.iter().zip(entries).all(|(one, other)| one.patch.triples() == other.patch.triples())
}

#[test]
fn a_journal_without_old_values_is_followed_or_differs(rt: HostRuntime) -> Result<(), Fail> {
    let report = far_report(rt.alloc())?;
    let entries = report.journal.entries();
    let plain = plain_of(rt.alloc(), entries)?;
    for (from, to, answer) in &PLACES {
        let start = far_world(rt.alloc(), *from)?;
        let last = far_world(rt.alloc(), *to)?;
        let (compared, followed) = compared_plain(rt.alloc(), start, plain.as_slice(), &last)?;
        assert!(rt; compared == *answer && is_followed(&followed, entries, *answer));
    }
    Ok(())
}

/// Behind how many entries the first world stands, how many of the entries follow,
/// and behind how many the last world stands; and how many rounds have
/// ended and how many amoebots wait.
static COUNTS: [(u32, usize, u32, Result<RoundCount, Differs>); 5] = [
    // Both have acted, and both rest at the end.
    (
        0,
        2,
        2,
        Ok(RoundCount {
            rounds: 1,
            waiting: 0,
        }),
    ),
    // The first amoebot has not acted yet.
    (
        0,
        1,
        1,
        Ok(RoundCount {
            rounds: 0,
            waiting: 1,
        }),
    ),
    // Without entries no round ends, and both wait.
    (
        0,
        0,
        0,
        Ok(RoundCount {
            rounds: 0,
            waiting: 2,
        }),
    ),
    // Another last shape, and another first one.
    (0, 2, 1, Err(Differs { place: 2 })),
    (2, 2, 2, Err(Differs { place: 0 })),
];

fn counted(
    alloc: Global,
    start: World,
    entries: &[Entry],
    last: &World,
) -> Result<Result<RoundCount, Differs>, Fail> {
    let bots = start.bots();
    if entries.len() > 4096 || !entries.iter().all(|entry| entry.bot < bots) {
        Err("entries")?;
    }
    Ok(count_rounds(alloc, &EXPANDER, start, entries, last)?)
}

/// The program that expands an amoebot is enabled on contracted ones alone.
#[test]
fn the_rounds_of_a_journal_are_counted(rt: HostRuntime) -> Result<(), Fail> {
    let report = far_report(rt.alloc())?;
    for (from, count, to, answer) in &COUNTS {
        let start = far_world(rt.alloc(), *from)?;
        let last = far_world(rt.alloc(), *to)?;
        let front = report.journal.entries().get(..*count).ok_or("entries")?;
        let given = counted(rt.alloc(), start, front, &last)?;
        assert!(rt; given == *answer);
    }
    Ok(())
}

fn is_text(text: Result<Text, NoMemory>, expected: &str) -> bool {
    match text {
        Ok(text) => text.bytes() == expected.as_bytes(),
        Err(NoMemory) => false,
    }
}

#[test]
fn each_line_has_one_number(rt: HostRuntime) {
    let alloc = rt.alloc();
    assert!(rt; is_text(print_agrees(alloc, 2), "agrees 2\n"));
    assert!(rt; is_text(print_differs(alloc, 0), "differs 0\n"));
    assert!(rt;
        is_text(
            print_rounds(alloc, 4294967295, 10),
            "rounds 4294967295\nwaiting 10\n"
        )
    );
    assert!(rt;
        is_text(
            print_election(alloc, 1, Some(65535)),
            "candidates 1\nleader 65535\n"
        )
    );
    assert!(rt;
        is_text(
            print_election(alloc, 6, None),
            "candidates 6\nleader none\n"
        )
    );
}
