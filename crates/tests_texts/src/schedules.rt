use claim_core::Lists;
use schedule_text::{Schedule, read_lists, read_schedule};
use std::alloc::{AllocError, Global};
use std::process::Abort;
use std::test::*;
use text_tokens::RefusalKind::{
    BadByte, BadId, BadRange, TooMany, Trailing, Truncated, Unexpected, WordTooLong,
};
use text_tokens::{Lines, ReadRefusal, Refusal, RefusalKind, Text, Tokens};

/// More bytes than a text of these tests has.
const MOST_BYTES: usize = 4_000_000;

/// What a whole text of lists stands for, in a world of so many amoebots.
fn lists_in(alloc: Global, text: &[u8], bots: u16) -> Result<Lists, ReadRefusal> {
    if text.len() > MOST_BYTES {
        return Err(ReadRefusal::NoMemory);
    }
    let mut tokens = Tokens::new(text);
    let lists = read_lists(alloc, &mut tokens, bots)?;
    tokens.end(Trailing)?;
    Ok(lists)
}

/// The steps of a whole text of a schedule of so many callers.
fn schedule_in(alloc: Global, text: &[u8], callers: u8) -> Result<Schedule, ReadRefusal> {
    if text.len() > MOST_BYTES {
        return Err(ReadRefusal::NoMemory);
    }
    let mut tokens = Tokens::new(text);
    let schedule = read_schedule(alloc, &mut tokens, callers)?;
    tokens.end(Trailing)?;
    Ok(schedule)
}

fn at(line: u32, kind: RefusalKind) -> Option<ReadRefusal> {
    Some(ReadRefusal::Refused(Refusal { line, kind }))
}

/// A text with its first fault.
type Fault = (&'static str, u32, RefusalKind);

/// What each of two lists has of its turns.
fn expect_two(rt: &impl Abort, lists: &Lists) {
    assert!(rt; lists.callers() == 2);
    assert!(rt; lists.turns() == 5);
    assert!(rt;
        [
            lists.bot(0, 0),
            lists.bot(0, 1),
            lists.bot(0, 2),
            lists.bot(0, 3)
        ] == [2, 0, 1, 2]
    );
    assert!(rt; lists.bot(1, 4) == 1);
}

#[test]
fn lists_are_read(rt: HostRuntime) -> Result<(), Fail> {
    let none = lists_in(rt.alloc(), b"lists turns 65536 end", 0)
        .ok()
        .ok_or("no list")?;
    assert!(rt; (none.callers(), none.turns()) == (0, 65_536));
    let text = b"lists # of two\nturns 0005\nlist 2 0\n1\nlist 01 end";
    let two = lists_in(rt.alloc(), text, 3).ok().ok_or("two lists")?;
    expect_two(&rt, &two);
    Ok(())
}

/// The line and kind of the first fault of lists in a world of 3 amoebots.
static LIST_FAULTS: [Fault; 27] = [
    ("", 1, Truncated),
    ("lists\n", 2, Truncated),
    ("lists turns", 1, Truncated),
    ("lists turns 0\nlist\n", 3, Truncated),
    ("list turns 0 end", 1, Unexpected),
    ("lists\nend", 2, Unexpected),
    ("lists\nlist 0 end", 2, Unexpected),
    ("lists turns\nlist 0 end", 2, Unexpected),
    ("lists turns\n-1 end", 2, Unexpected),
    ("lists turns 1\n1 end", 2, Unexpected),
    ("lists turns 1 list\nend", 2, Unexpected),
    ("lists turns 1 list\nlist 0 end", 2, Unexpected),
    ("lists turns 1 list 0\nturns 1 end", 2, Unexpected),
    ("lists turns 1 list 0\nschedule", 2, Unexpected),
    ("lists turns 1 list 0\n: end", 2, BadByte),
    ("lists turns 1 list\n0000000000 end", 2, WordTooLong),
    ("lists turns 1 list 0 end\nschedule", 2, Trailing),
    ("lists turns\n65537 end", 2, TooMany),
    ("lists turns\n999999999 end", 2, TooMany),
    ("lists turns 65536 list 0\nlist 0 end", 2, TooMany),
    ("lists turns 32769 list 0\nlist 0 end", 2, TooMany),
    ("lists turns 21846 list 0 list 0\nlist 0 end", 2, TooMany),
    ("lists turns 65536 list 0\nlist\n3 end", 2, TooMany),
    ("lists turns 1 list\n3 end", 2, BadId),
    ("lists turns 1 list 2 1 0\n3 end", 2, BadId),
    ("lists turns 1 list 0 list\n4096 end", 2, BadId),
    ("lists turns 1 list 3\n, end", 1, BadId),
];

fn are_no_lists(rt: &impl Abort, alloc: Global, table: &[Fault]) {
    for (text, line, kind) in table {
        let found = lists_in(alloc, text.as_bytes(), 3).err();
        assert!(rt; found == at(*line, *kind), "{text}");
    }
}

#[test]
fn lists_are_refused_at_their_first_fault(rt: HostRuntime) {
    are_no_lists(&rt, rt.alloc(), &LIST_FAULTS);
}

/// So many lists of the amoebot 0 alone, each on a line, with so many turns each.
fn many_lists(alloc: Global, turns: u32, lists: u32) -> Result<Text, AllocError> {
    let mut lines = Lines::new(alloc);
    lines.open_section("lists")?;
    lines.begin("turns")?;
    lines.number(turns)?;
    lines.end()?;
    for _list in 0..lists {
        lines.begin("list")?;
        lines.number(0u32)?;
        lines.end()?;
    }
    lines.close_section()?;
    Ok(lines.text())
}

#[test]
fn there_are_at_most_16_lists(rt: HostRuntime) -> Result<(), Fail> {
    let most = many_lists(rt.alloc(), 0, 16)?;
    let lists = lists_in(rt.alloc(), most.bytes(), 1)
        .ok()
        .ok_or("16 lists")?;
    assert!(rt; lists.callers() == 16);
    let more = many_lists(rt.alloc(), 0, 17)?;
    assert!(rt; lists_in(rt.alloc(), more.bytes(), 1).err() == at(19, TooMany));
    Ok(())
}

/// Turns, so many lists as they can have, and the line of one more.
static TURNS: [(u32, u32, u32); 6] = [
    (65_536, 1, 4),
    (32_768, 2, 5),
    (21_845, 3, 6),
    (4370, 14, 17),
    (4369, 15, 18),
    (4096, 16, 19),
];

fn have_turns(rt: &impl Abort, alloc: Global, table: &[(u32, u32, u32)]) -> Result<(), AllocError> {
    for (turns, lists, line) in table {
        assert!(rt; *lists <= 16);
        let most = many_lists(alloc, *turns, *lists)?;
        assert!(rt; lists_in(alloc, most.bytes(), 1).is_ok(), "{turns}");
        let more = many_lists(alloc, *turns, *lists + 1)?;
        assert!(rt;
            lists_in(alloc, more.bytes(), 1).err() == at(*line, TooMany),
            "{turns}"
        );
    }
    Ok(())
}

#[test]
fn there_are_at_most_65536_turns(rt: HostRuntime) -> Result<(), Fail> {
    have_turns(&rt, rt.alloc(), &TURNS)?;
    Ok(())
}

/// A list of so many ids, each on a line, and then this one.
fn long_list(alloc: Global, ids: u32, last: u32) -> Result<Text, AllocError> {
    let mut lines = Lines::new(alloc);
    lines.open_section("lists")?;
    lines.begin("turns 1 list")?;
    for id in 0..ids {
        lines.end()?;
        lines.number(id % 3)?;
    }
    lines.end()?;
    lines.number(last)?;
    lines.end()?;
    lines.close_section()?;
    Ok(lines.text())
}

/// Long lists with their first fault: one more, be it an amoebot's or not,
/// comes before an unknown one.
static LONG_LISTS: [(u32, u32, u32, RefusalKind); 3] = [
    (4095, 3, 4098, BadId),
    (4096, 2, 4099, TooMany),
    (4096, 3, 4099, TooMany),
];

fn are_too_long(
    rt: &impl Abort,
    alloc: Global,
    table: &[(u32, u32, u32, RefusalKind)],
) -> Result<(), AllocError> {
    for (ids, last, line, kind) in table {
        let text = long_list(alloc, *ids, *last)?;
        assert!(rt; lists_in(alloc, text.bytes(), 3).err() == at(*line, *kind));
    }
    Ok(())
}

#[test]
fn a_list_has_at_most_4096_ids(rt: HostRuntime) -> Result<(), Fail> {
    let full = long_list(rt.alloc(), 4095, 2)?;
    let lists = lists_in(rt.alloc(), full.bytes(), 3)
        .ok()
        .ok_or("4,096 ids")?;
    assert!(rt; lists.callers() == 1);
    assert!(rt; [lists.bot(0, 4095), lists.bot(0, 4096)] == [2, 0]);
    are_too_long(&rt, rt.alloc(), &LONG_LISTS)?;
    Ok(())
}

/// Whether a schedule of 2 callers has these steps and no other.
fn has_steps(alloc: Global, text: &[u8], callers: &[u8]) -> bool {
    let Ok(schedule) = schedule_in(alloc, text, 2) else {
        return false;
    };
    if schedule.steps() as usize != callers.len() {
        return false;
    }
    for number in 0..schedule.steps() {
        if schedule.step(number) != callers[number as usize] {
            return false;
        }
    }
    true
}

/// Schedules with the caller of each step.
static SCHEDULES: [(&str, &[u8]); 5] = [
    ("schedule end", &[]),
    ("schedule\n0\nend", &[0]),
    ("schedule 1 0 1 end", &[1, 0, 1]),
    (
        "schedule 0 times 2 1 times 6 0 end",
        &[0, 0, 1, 1, 1, 1, 1, 1, 0],
    ),
    (
        "schedule # of two\n1times 1\n001 times\n3 0times 002end",
        &[1, 1, 1, 1, 0, 0],
    ),
];

fn have_steps(rt: &impl Abort, alloc: Global, table: &[(&str, &[u8])]) {
    for (text, callers) in table {
        assert!(rt; has_steps(alloc, text.as_bytes(), callers), "{text}");
    }
}

#[test]
fn schedules_are_read(rt: HostRuntime) {
    have_steps(&rt, rt.alloc(), &SCHEDULES);
}

/// The line and kind of the first fault of schedules of 2 callers.
static SCHEDULE_FAULTS: [Fault; 25] = [
    ("", 1, Truncated),
    ("schedule\n", 2, Truncated),
    ("schedule 0 times\n", 2, Truncated),
    ("schedule 0 times 3\n", 2, Truncated),
    ("lists end", 1, Unexpected),
    ("schedule\ntimes 3 end", 2, Unexpected),
    ("schedule 0 times\nend", 2, Unexpected),
    ("schedule 0 times\n- 3 end", 2, Unexpected),
    ("schedule 0 times 3\ntimes 3 end", 2, Unexpected),
    ("schedule 0\nlists end", 2, Unexpected),
    ("schedule 0\n+ end", 2, Unexpected),
    ("schedule 0\n, end", 2, BadByte),
    ("schedule 0 times\n1000000000 end", 2, WordTooLong),
    ("schedule end\n0", 2, Trailing),
    ("schedule\n2 end", 2, BadId),
    ("schedule 1\n2 end", 2, BadId),
    ("schedule 0 times 3\n999999999 end", 2, BadId),
    ("schedule 2\ntimes 0 end", 1, BadId),
    ("schedule 0 times\n0 end", 2, BadRange),
    ("schedule 0 times\n000 end", 2, BadRange),
    ("schedule 0 times 1 1 times\n0 end", 2, BadRange),
    ("schedule 0 times\n1000001 end", 2, TooMany),
    ("schedule 0 times\n999999999 end", 2, TooMany),
    ("schedule 0 1 times\n1000000 end", 2, TooMany),
    ("schedule 0 times 2 1 times\n999999 end", 2, TooMany),
];

fn are_no_schedules(rt: &impl Abort, alloc: Global, table: &[Fault]) {
    for (text, line, kind) in table {
        let found = schedule_in(alloc, text.as_bytes(), 2).err();
        assert!(rt; found == at(*line, *kind), "{text}");
    }
}

#[test]
fn schedules_are_refused_at_their_first_fault(rt: HostRuntime) {
    are_no_schedules(&rt, rt.alloc(), &SCHEDULE_FAULTS);
}

#[test]
fn a_million_steps_are_read(rt: HostRuntime) -> Result<(), Fail> {
    let text = b"schedule 0 times 999998 1 times 1 1 end";
    let all = schedule_in(rt.alloc(), text, 2).ok().ok_or("a million")?;
    assert!(rt; all.steps() == 1_000_000);
    assert!(rt; all.step(999_997) == 0);
    assert!(rt; all.step(999_998) == 1);
    assert!(rt; all.step(999_999) == 1);
    Ok(())
}

#[test]
fn a_caller_makes_no_step_past_a_million(rt: HostRuntime) {
    let text = b"schedule 0 times 1000000\n2 times 0 end";
    assert!(rt; schedule_in(rt.alloc(), text, 2).err() == at(2, TooMany));
}

#[test]
fn times_makes_no_step_past_a_million(rt: HostRuntime) {
    let text = b"schedule 0 times 999999 1\ntimes\n2 end";
    assert!(rt; schedule_in(rt.alloc(), text, 2).err() == at(3, TooMany));
}
