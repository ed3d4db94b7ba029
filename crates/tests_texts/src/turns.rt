//! Turns read and printed.

use amoebot_state::{CellName, Failure};
use claim_core::{Mark, Marks};
use journal_text::{print_turns, read_turns};
use std::alloc::Global;
use std::test::*;
use text_tokens::RefusalKind::{BadByte, BadRange, Trailing, Truncated, Unexpected, WordTooLong};
use text_tokens::{ReadRefusal, Refusal, RefusalKind, Tokens};
use tri_lattice::Node;

/// More bytes than a text of these tests has.
pub(crate) const MOST_BYTES: usize = 4_000_000;

pub(crate) fn at(line: u32, kind: RefusalKind) -> Option<ReadRefusal> {
    Some(ReadRefusal::Refused(Refusal { line, kind }))
}

pub(crate) fn maybe_at(place: Option<(u32, RefusalKind)>) -> Option<ReadRefusal> {
    match place {
        Some((line, kind)) => at(line, kind),
        None => None,
    }
}

/// The first fault of a text of turns in a document of the version.
fn turns_fault(version: u8, text: &[u8]) -> Option<ReadRefusal> {
    if text.len() > MOST_BYTES {
        return Some(ReadRefusal::NoMemory);
    }
    let mut tokens = Tokens::new(text);
    match read_turns(&mut tokens, version) {
        Ok(()) => tokens.end(Trailing).err().map(ReadRefusal::Refused),
        Err(refusal) => Some(refusal),
    }
}

/// Texts of turns with their first fault, which is the same in each version.
static TURNS: [(&[u8], Option<(u32, RefusalKind)>); 27] = [
    (b"turns end", None),
    (
        b"turns turn 0 0 done 0 turn 0 0 done 0 turn 999999999 999999999 idle 999999999 end",
        None,
    ),
    (
        b"turns turn 0 0 busy spot -9999 - 1 by 16 0 5000 place 7 \
        turn 1 1 busy body 5000 by 0 0 0 place 0 end",
        None,
    ),
    (
        b"turns turn 0 0 failed no_port 0 turn 0 0 failed no_neighbour 0 turn 0 0 failed out_of_range 0 end",
        None,
    ),
    (
        b"turns turn 0 0 failed occupied 0 turn 0 0 failed not_contracted 0 \
        turn 0 0 failed not_expanded 0 end",
        None,
    ),
    (
        b"turns turn 0 0 failed peer_not_expanded 0 \
        turn 0 0 failed peer_not_contracted 0 turn 0 0 failed edge 0 end",
        None,
    ),
    (
        b"turns turn 0 0 failed would_split 0 turn 0 0 failed no_choice 0 end",
        None,
    ),
    // a cell in turns has no value, and so no word behind it
    (
        b"turns turn 0 0 busy spot 3 3\nto by 0 0 0 place 0 end",
        Some((2, Unexpected)),
    ),
    (b"", Some((1, Truncated))),
    (b"turns\n", Some((2, Truncated))),
    (b"turn", Some((1, Unexpected))),
    (b"turns end\nend", Some((2, Trailing))),
    (b"turns end\n!", Some((2, BadByte))),
    (b"turns turn\ndone 0 end", Some((2, Unexpected))),
    (b"turns turn 0\ndone 0 end", Some((2, Unexpected))),
    (
        b"turns turn 0 0\nturn 0 0 done 0 end",
        Some((2, Unexpected)),
    ),
    (b"turns turn 0 0 done\nend", Some((2, Unexpected))),
    (b"turns turn 0 0 failed\n0 end", Some((2, Unexpected))),
    (
        b"turns turn 0 0 failed\nnoport 0 end",
        Some((2, Unexpected)),
    ),
    (
        b"turns turn 0 0 failed\nno_port_ 0 end",
        Some((2, Unexpected)),
    ),
    (b"turns turn 0 0 failed no_port\nend", Some((2, Unexpected))),
    (
        b"turns turn 0 0 busy\n0 by 0 0 0 place 0 end",
        Some((2, Unexpected)),
    ),
    (
        b"turns turn 0 0 busy spot\n10000 0 by 0 0 0 place 0 end",
        Some((2, BadRange)),
    ),
    (
        b"turns turn 0 0 busy spot 0 -\n10000 by 0 0 0 place 0 end",
        Some((2, BadRange)),
    ),
    (
        b"turns turn 0 0 busy body 0 by 0 0\nplace 0 end",
        Some((2, Unexpected)),
    ),
    (
        b"turns turn 0 0 busy body 0 by 0 0 0\n0 end",
        Some((2, Unexpected)),
    ),
    (b"turns turn 0 0 idle 1\n0000000001", Some((2, WordTooLong))),
];

#[test]
fn turns_are_read_or_refused(rt: HostRuntime) {
    for (text, refusal) in &TURNS {
        let expected = maybe_at(*refusal);
        assert!(rt; turns_fault(1, text) == expected);
        assert!(rt; turns_fault(2, text) == expected);
        assert!(rt; turns_fault(3, text) == expected);
    }
}

#[test]
fn only_a_version_with_walls_has_the_word_blocked(rt: HostRuntime) {
    let text = b"turns turn 0 0 failed\nblocked 0 end".as_slice();
    assert!(rt; turns_fault(1, text) == at(2, Unexpected));
    assert!(rt; turns_fault(2, text).is_none());
}

/// The marks of two of three callers, of each kind.
fn marks_of_each_kind(alloc: Global) -> Result<Marks, Fail> {
    let mut marks = Marks::make(alloc, 3, 3).ok().ok_or("no marks")?;
    marks.add(0, Mark::Done { place: 0 });
    marks.add(2, Mark::Idle { place: 65_536 });
    marks.add(
        0,
        Mark::Failed {
            failure: Failure::PeerNotContracted,
            place: 1,
        },
    );
    marks.add(
        2,
        Mark::Busy {
            cell: CellName::Spot(Node { x: -4096, y: 17 }),
            by_caller: 0,
            by_turn: 1,
            by_bot: 4095,
            place: 1,
        },
    );
    marks.add(
        0,
        Mark::Busy {
            cell: CellName::Body(7),
            by_caller: 2,
            by_turn: 0,
            by_bot: 3,
            place: 2,
        },
    );
    Ok(marks)
}

#[test]
fn each_kind_of_mark_is_printed_and_read(rt: HostRuntime) -> Result<(), Fail> {
    let marks = marks_of_each_kind(rt.alloc())?;
    let text = print_turns(rt.alloc(), &marks).ok().ok_or("no text")?;
    assert!(rt;
        text.bytes()
            == b"turns\nturn 0 0 done 0\nturn 0 1 failed peer_not_contracted 1\n\
            turn 0 2 busy body 7 by 2 0 3 place 2\nturn 2 0 idle 65536\n\
            turn 2 1 busy spot -4096 17 by 0 1 4095 place 1\nend\n"
                .as_slice()
    );
    assert!(rt; turns_fault(1, text.bytes()).is_none());
    Ok(())
}

#[test]
fn no_mark_has_an_empty_section(rt: HostRuntime) -> Result<(), Fail> {
    let marks = Marks::make(rt.alloc(), 16, 0).ok().ok_or("no marks")?;
    let turns = print_turns(rt.alloc(), &marks).ok().ok_or("no text")?;
    assert!(rt; turns.bytes() == b"turns\nend\n".as_slice());
    Ok(())
}
