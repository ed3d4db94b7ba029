use crate::checker::is_report;
use amoebot_state::{Cell, CellName, Entry, Failure, Moved, Patch, World};
use claim_core::{Journal, Mark, Marks, Report};
use small_worlds::{Marker, lists_of, standing, world_of};
use std::alloc::Global;
use std::test::Fail;
use tri_lattice::Node;

/// What a report says of a turn: a mark by its parts in their order,
/// where a failure is that of the edge.
#[derive(Clone, Copy)]
enum Said {
    Done(u32),
    Idle(u32),
    Failed(u32),
    Busy(CellName, u8, u32, u16, u32),
}

use Said::{Busy, Done, Failed, Idle};

/// The entries of a report.
#[derive(Clone, Copy)]
enum Entries {
    /// Turn 0 of caller 0 on amoebot 0, and then its turn 1 on amoebot 1.
    Both,
    /// The first of them twice.
    Twice,
    /// The second of them first.
    Exchanged,
    /// The second of them alone.
    Second,
    /// The first of them alone.
    First,
    /// Both, where the second has the amoebot of the first.
    OneBot,
    /// Both, where the second has another value before.
    Misread,
}

/// A report of callers 0 and 1 with the lists 0 1 and 1 and two turns each,
/// in the world of two amoebots side by side whose variable is 0:
/// its entries; the two marks of caller 0 and those of caller 1; the last values of the variable.
#[derive(Clone, Copy)]
struct Case(Entries, Said, Said, Said, Said, u8, u8);

/// The nodes of the amoebots, and one that is far from them.
const AT_0: CellName = CellName::Spot(Node { x: 2, y: 3 });

const AT_1: CellName = CellName::Spot(Node { x: 3, y: 3 });

const FAR: CellName = CellName::Spot(Node { x: 6, y: 6 });

/// Caller 0 commits its turns while caller 1 is refused in its first turn;
/// caller 1 finds both amoebots set.
/// And: each is refused in its first turn by the other, and then caller 0 commits.
static RIGHT: [Case; 2] = [
    Case(
        Entries::Both,
        Done(0),
        Done(1),
        Busy(AT_1, 0, 0, 0, 0),
        Idle(2),
        1,
        1,
    ),
    Case(
        Entries::Second,
        Busy(AT_1, 1, 0, 1, 0),
        Done(0),
        Busy(AT_0, 0, 0, 0, 0),
        Idle(1),
        0,
        1,
    ),
];

/// Each differs from one of those in one thing.
static WRONG: [Case; 19] = [
    // 0: a Busy with a cell that is far from its amoebot
    Case(
        Entries::Both,
        Done(0),
        Done(1),
        Busy(FAR, 0, 0, 0, 0),
        Idle(2),
        1,
        1,
    ),
    // 1: by a turn of the same caller
    Case(
        Entries::Both,
        Done(0),
        Done(1),
        Busy(AT_1, 1, 1, 1, 0),
        Idle(2),
        1,
        1,
    ),
    // 2: by another amoebot than that of the turn
    Case(
        Entries::Both,
        Done(0),
        Done(1),
        Busy(AT_1, 0, 0, 1, 0),
        Idle(2),
        1,
        1,
    ),
    // 3: by a turn that is none of the lists'
    Case(
        Entries::Both,
        Done(0),
        Done(1),
        Busy(AT_1, 0, 2, 0, 0),
        Idle(2),
        1,
        1,
    ),
    // 4: by a caller that is none of the lists'
    Case(
        Entries::Both,
        Done(0),
        Done(1),
        Busy(AT_1, 2, 0, 0, 0),
        Idle(2),
        1,
        1,
    ),
    // 5: by a turn that had not begun at that place
    Case(
        Entries::Both,
        Done(0),
        Done(1),
        Busy(AT_1, 0, 1, 1, 0),
        Idle(2),
        1,
        1,
    ),
    // 6: by a turn that was refused that very cell
    Case(
        Entries::Second,
        Busy(AT_1, 1, 0, 1, 0),
        Done(0),
        Busy(AT_1, 0, 0, 0, 0),
        Idle(1),
        0,
        1,
    ),
    // 7: a place above the journal's length
    Case(
        Entries::Both,
        Done(0),
        Done(1),
        Busy(AT_1, 0, 0, 0, 0),
        Idle(3),
        1,
        1,
    ),
    // 8: an Idle at a place where the amoebot still had something to do
    Case(
        Entries::Both,
        Done(0),
        Done(1),
        Busy(AT_1, 0, 0, 0, 0),
        Idle(1),
        1,
        1,
    ),
    // 9: a failure of an idle amoebot
    Case(
        Entries::Both,
        Done(0),
        Done(1),
        Busy(AT_1, 0, 0, 0, 0),
        Failed(2),
        1,
        1,
    ),
    // 10: a Done that is Idle
    Case(
        Entries::Both,
        Done(0),
        Done(1),
        Busy(AT_1, 0, 0, 0, 0),
        Done(1),
        1,
        1,
    ),
    // 11: an Idle that is Done
    Case(
        Entries::Both,
        Done(0),
        Idle(2),
        Busy(AT_1, 0, 0, 0, 0),
        Idle(2),
        1,
        1,
    ),
    // 12: the marks of two turns exchanged, so that places fall
    Case(
        Entries::Both,
        Done(0),
        Done(1),
        Idle(2),
        Busy(AT_1, 0, 0, 0, 0),
        1,
        1,
    ),
    // 13: the entries of two turns exchanged
    Case(
        Entries::Exchanged,
        Done(1),
        Done(0),
        Busy(AT_1, 0, 0, 0, 0),
        Idle(2),
        1,
        1,
    ),
    // 14: an entry twice
    Case(
        Entries::Twice,
        Done(0),
        Done(2),
        Busy(AT_1, 0, 0, 0, 0),
        Idle(3),
        1,
        1,
    ),
    // 15: an entry left out
    Case(
        Entries::First,
        Done(0),
        Idle(1),
        Busy(AT_1, 0, 0, 0, 0),
        Idle(1),
        1,
        0,
    ),
    // 16: an entry with another amoebot than that of its turn
    Case(
        Entries::OneBot,
        Done(0),
        Done(1),
        Busy(AT_1, 0, 0, 0, 0),
        Idle(2),
        1,
        1,
    ),
    // 17: a wrong value in the last world
    Case(
        Entries::Both,
        Done(0),
        Done(1),
        Busy(AT_1, 0, 0, 0, 0),
        Idle(2),
        1,
        0,
    ),
    // 18: an entry with another value before than the amoebot had
    Case(
        Entries::Misread,
        Done(0),
        Done(1),
        Busy(AT_1, 0, 0, 0, 0),
        Idle(2),
        1,
        1,
    ),
];

fn mark_of(said: Said) -> Mark {
    match said {
        Said::Done(place) => Mark::Done { place },
        Said::Idle(place) => Mark::Idle { place },
        Said::Failed(place) => Mark::Failed {
            failure: Failure::Edge,
            place,
        },
        Said::Busy(cell, by_caller, by_turn, by_bot, place) => Mark::Busy {
            cell,
            by_caller,
            by_turn,
            by_bot,
            place,
        },
    }
}

/// The entry of a turn of caller 0 in which an amoebot sets its variable,
/// which had this value before.
fn entry(turn: u32, bot: u16, before: u8) -> Entry {
    let x = if bot == 0 { 2 } else { 3 };
    let mut patch = Patch::new();
    patch.push(
        CellName::Body(bot),
        Cell::Body(standing(x, 3, before)),
        Cell::Body(standing(x, 3, 1)),
    );
    Entry {
        caller: 0,
        turn,
        bot,
        action: 0,
        moved: Moved::None,
        patch,
    }
}

fn append(alloc: Global, journal: &mut Journal, entry: Entry) -> Result<(), Fail> {
    journal.reserve(alloc, 1).ok().ok_or("no room")?;
    journal.push(entry);
    Ok(())
}

fn journal_of(alloc: Global, first: &World, entries: Entries) -> Result<Journal, Fail> {
    let mut journal = Journal::make(alloc, first).ok().ok_or("no journal")?;
    let turns: &[(u32, u16, u8)] = match entries {
        Entries::Both => &[(0, 0, 0), (1, 1, 0)],
        Entries::Twice => &[(0, 0, 0), (0, 0, 0), (1, 1, 0)],
        Entries::Exchanged => &[(1, 1, 0), (0, 0, 0)],
        Entries::Second => &[(1, 1, 0)],
        Entries::First => &[(0, 0, 0)],
        Entries::OneBot => &[(0, 0, 0), (1, 0, 0)],
        Entries::Misread => &[(0, 0, 0), (1, 1, 1)],
    };
    for (turn, bot, before) in turns {
        append(alloc, &mut journal, entry(*turn, *bot, *before))?;
    }
    Ok(journal)
}

fn marks_of(alloc: Global, said: [Said; 4]) -> Result<Marks, Fail> {
    let mut marks = Marks::make(alloc, 2, 2).ok().ok_or("no marks")?;
    marks.add(0, mark_of(said[0]));
    marks.add(0, mark_of(said[1]));
    marks.add(1, mark_of(said[2]));
    marks.add(1, mark_of(said[3]));
    Ok(marks)
}

/// Whether the checker takes the report for one of callers of its lists.
fn passes(alloc: Global, case: Case) -> Result<bool, Fail> {
    let Case(entries, first_0, first_1, second_0, second_1, last_0, last_1) = case;
    let first = world_of(alloc, &[standing(2, 3, 0), standing(3, 3, 0)])?;
    let lists = lists_of(alloc, 2, &first, &[&[0, 1], &[1]])?;
    let report = Report {
        world: world_of(alloc, &[standing(2, 3, last_0), standing(3, 3, last_1)])?,
        journal: journal_of(alloc, &first, entries)?,
        turns: marks_of(alloc, [first_0, first_1, second_0, second_1])?,
    };
    is_report(alloc, &Marker, &first, &lists, &report)
}

#[test]
fn the_checker_refuses_reports_that_were_tampered_with(rt: HostRuntime) -> Result<(), Fail> {
    for case in &RIGHT {
        assert!(rt; passes(rt.alloc(), *case)?);
    }
    for (number, case) in WRONG.iter().enumerate() {
        assert!(rt; !passes(rt.alloc(), *case)?, "case {number}");
    }
    Ok(())
}
