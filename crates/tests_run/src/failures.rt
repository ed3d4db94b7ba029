//! Reads and writes that fail: each one of a call in turn, and what stands then.

use crate::calls::{call, has_nothing, says};
use crate::rows::{COMPARED_AND_CHECKED, INTERLEAVINGS, MEASURED, SHOWN};
use amoebot_run::{Ended, Status};
use outer_io::{Failed, MemSink, MemSource, Source, SureSink, SureSource};
use std::alloc::Global;
use std::process::Abort;
use std::sync::Wait;
use std::test::Fail;
use std::thread::Threads;
use tests_shared::journals::{COUNTED, DIFFERENT, ELECTIONS, RENEWED, REWOUND, TO_START};
use tests_shared::pieces::{Row, WORKED, spelled};

/// How many bytes a read or a write passes.
const PIECE: u32 = 10;

/// How many calls pass so many bytes.
fn calls_for(bytes: usize) -> u32 {
    bytes.div_ceil(10).min(1000) as u32
}

/// A document with the words that read it, the status and the text.
#[derive(Clone, Copy)]
struct Case<'a> {
    words: &'a [&'a str],
    document: &'a str,
    status: Status,
    text: &'a str,
}

/// Runs the document in pieces, of which one read fails,
/// and compares the status and what is written.
fn check_read<R: Abort + Threads + Wait + Sync>(
    rt: &R,
    alloc: Global,
    case: &Case,
    failing: u32,
    status: Status,
    text: &str,
) -> Result<(), Fail> {
    let mut input = MemSource::new(alloc, case.document.as_bytes(), PIECE, &[failing])?;
    let mut out = SureSink::new(alloc, 4096)?;
    let ended = call(rt, alloc, case.words, &mut input, &mut out)?;
    says(rt, &ended, &out, status, text);
    Ok(())
}

/// Each read of the document fails in turn, the one that would tell the end too.
/// The read behind that is never made.
fn check_each_read<R: Abort + Threads + Wait + Sync>(
    rt: &R,
    alloc: Global,
    case: &Case,
) -> Result<(), Fail> {
    let reads = calls_for(case.document.len()).saturating_add(1);
    for failing in 0..reads {
        check_read(rt, alloc, case, failing, Status::ReadFault, "read fault\n")?;
    }
    check_read(rt, alloc, case, reads, case.status, case.text)
}

/// Runs the document into a sink of this room, of which one write fails,
/// and compares the status and the bytes taken.
fn check_write<R: Abort + Threads + Wait + Sync>(
    rt: &R,
    alloc: Global,
    case: &Case,
    room: u32,
    failing: &[u32],
    status: Status,
    taken: &[u8],
) -> Result<(), Fail> {
    let mut input = SureSource::new(alloc, case.document.as_bytes())?;
    let mut out = MemSink::new(alloc, room, PIECE, failing)?;
    let ended = call(rt, alloc, case.words, &mut input, &mut out)?;
    took(rt, &ended, &out, status, taken);
    Ok(())
}

/// The call ended so, and the sink took these bytes. Where a write failed, nothing else came.
fn took(rt: &impl Abort, ended: &Ended, out: &MemSink, status: Status, taken: &[u8]) {
    assert!(rt; ended.status == status);
    assert!(rt; out.bytes() == taken);
    if status == Status::WriteFault {
        has_nothing(rt, ended);
    }
}

/// Each write of the text fails in turn: then ten bytes of it are there for each write before.
/// The write behind the last is never made.
fn check_each_write<R: Abort + Threads + Wait + Sync>(
    rt: &R,
    alloc: Global,
    case: &Case,
) -> Result<(), Fail> {
    let text = case.text.as_bytes();
    let writes = calls_for(text.len());
    let mut before = 0;
    for failing in 0..writes {
        let taken = text.get(..before).ok_or("a front")?;
        check_write(rt, alloc, case, 4096, &[failing], Status::WriteFault, taken)?;
        before = before.saturating_add(10);
    }
    check_write(rt, alloc, case, 4096, &[writes], case.status, text)
}

/// A sink that has room for fewer bytes than the text gets what it has room for.
fn check_each_room<R: Abort + Threads + Wait + Sync>(
    rt: &R,
    alloc: Global,
    case: &Case,
) -> Result<(), Fail> {
    let text = case.text.as_bytes();
    let mut room = 0;
    for (at, _byte) in text.iter().enumerate() {
        let taken = text.get(..at).ok_or("a front")?;
        check_write(rt, alloc, case, room, &[], Status::WriteFault, taken)?;
        room = room.saturating_add(1);
    }
    check_write(rt, alloc, case, room, &[], case.status, text)
}

/// Each read and each write of a row fails in turn, by these words.
fn check_each_call_by<R: Abort + Threads + Wait + Sync>(
    rt: &R,
    alloc: Global,
    words: &[&str],
    row: &Row,
) -> Result<(), Fail> {
    let document = spelled(alloc, row.1)?;
    let text = spelled(alloc, row.4)?;
    let case = Case {
        words,
        document: document.as_str(),
        status: row.2,
        text: text.as_str(),
    };
    check_each_read(rt, alloc, &case)?;
    check_each_write(rt, alloc, &case)
}

/// The same by the row's own word.
fn check_each_call<R: Abort + Threads + Wait + Sync>(
    rt: &R,
    alloc: Global,
    row: &Row,
) -> Result<(), Fail> {
    check_each_call_by(rt, alloc, &[row.0], row)
}

#[test]
fn each_read_and_each_write_that_fails_gives_its_status(rt: HostRuntime) -> Result<(), Fail> {
    check_each_call(&rt, rt.alloc(), &WORKED)
}

#[test]
fn each_failing_call_of_tickets_gives_its_status(rt: HostRuntime) -> Result<(), Fail> {
    check_each_call_by(&rt, rt.alloc(), &["tickets"], &WORKED)
}

#[test]
fn a_sink_gets_what_it_has_room_for(rt: HostRuntime) -> Result<(), Fail> {
    let document = spelled(rt.alloc(), WORKED.1)?;
    let text = spelled(rt.alloc(), WORKED.4)?;
    let case = Case {
        words: &[WORKED.0],
        document: document.as_str(),
        status: WORKED.2,
        text: text.as_str(),
    };
    check_each_room(&rt, rt.alloc(), &case)
}

/// One of the turns is Busy.
#[test]
fn each_failing_call_of_an_interleaving_gives_its_status(rt: HostRuntime) -> Result<(), Fail> {
    check_each_call(&rt, rt.alloc(), &INTERLEAVINGS[0])
}

#[test]
fn each_failing_call_of_a_replay_gives_its_status(rt: HostRuntime) -> Result<(), Fail> {
    check_each_call(&rt, rt.alloc(), &COMPARED_AND_CHECKED[0])?;
    check_each_call(&rt, rt.alloc(), &COMPARED_AND_CHECKED[2])
}

#[test]
fn each_failing_call_of_a_measure_gives_its_status(rt: HostRuntime) -> Result<(), Fail> {
    check_each_call(&rt, rt.alloc(), &MEASURED[3])
}

#[test]
fn each_failing_call_of_a_renewal_gives_its_status(rt: HostRuntime) -> Result<(), Fail> {
    check_each_call(&rt, rt.alloc(), &RENEWED[0])?;
    check_each_call(&rt, rt.alloc(), &DIFFERENT[0])
}

#[test]
fn each_failing_call_of_a_way_back_gives_its_status(rt: HostRuntime) -> Result<(), Fail> {
    check_each_call_by(&rt, rt.alloc(), TO_START, &REWOUND[0])?;
    check_each_call_by(&rt, rt.alloc(), TO_START, &REWOUND[1])
}

#[test]
fn each_failing_call_of_a_count_of_rounds_gives_its_status(rt: HostRuntime) -> Result<(), Fail> {
    check_each_call(&rt, rt.alloc(), &COUNTED[0])?;
    check_each_call(&rt, rt.alloc(), &COUNTED[1])
}

#[test]
fn each_failing_call_of_an_election_gives_its_status(rt: HostRuntime) -> Result<(), Fail> {
    check_each_call(&rt, rt.alloc(), &ELECTIONS[0])?;
    check_each_call(&rt, rt.alloc(), &ELECTIONS[1])
}

/// The text of a shipped program is its own canonical text.
#[test]
fn each_failing_call_of_a_check_gives_its_status(rt: HostRuntime) -> Result<(), Fail> {
    let case = Case {
        words: &["check"],
        document: SHOWN[0].1,
        status: Status::Done,
        text: SHOWN[0].1,
    };
    check_each_read(&rt, rt.alloc(), &case)?;
    check_each_write(&rt, rt.alloc(), &case)
}

#[test]
fn each_failing_write_of_a_shown_program_gives_its_status(rt: HostRuntime) -> Result<(), Fail> {
    for (name, text) in &SHOWN {
        let case = Case {
            words: &["show", *name],
            document: "",
            status: Status::Done,
            text: *text,
        };
        check_each_write(&rt, rt.alloc(), &case)?;
    }
    Ok(())
}

/// The first write, the fourth and the last one of seven.
/// A call takes some time, since 16,000 turns are made.
#[test]
fn a_failing_write_of_a_sample_gives_its_status(rt: HostRuntime) -> Result<(), Fail> {
    let case = Case {
        words: &["sample", "1"],
        document: "",
        status: Status::Done,
        text: "sample 1\nbots 150\ncallers 4\nturns 16000\nconnected yes\nreplay yes\n",
    };
    let text = case.text.as_bytes();
    for (failing, before) in [(0, 0), (3, 30), (6, 60)] {
        let taken = text.get(..before).ok_or("a front")?;
        check_write(
            &rt,
            rt.alloc(),
            &case,
            4096,
            &[failing],
            Status::WriteFault,
            taken,
        )?;
    }
    Ok(())
}

/// The third read fails, and then the second write: ten bytes went out before.
#[test]
fn the_third_read_fails_and_then_the_second_write(rt: HostRuntime) -> Result<(), Fail> {
    let document = spelled(rt.alloc(), WORKED.1)?;
    let case = Case {
        words: &[WORKED.0],
        document: document.as_str(),
        status: WORKED.2,
        text: "",
    };
    check_read(&rt, rt.alloc(), &case, 2, Status::ReadFault, "read fault\n")?;
    let taken = "journal\nen".as_bytes();
    check_write(
        &rt,
        rt.alloc(),
        &case,
        1000,
        &[1],
        Status::WriteFault,
        taken,
    )
}

/// A line that says what is wrong fails as a text does.
#[test]
fn a_line_that_is_not_written_is_a_write_fault(rt: HostRuntime) -> Result<(), Fail> {
    let lines: [(&[&str], &str, &[u32], &str); 9] = [
        (&["walk"], "", &[], "usage: run / interle"),
        (&["run"], "", &[], "refused 1 Truncated\n"),
        (&["run"], "amoebot 1", &[0], "read fault"),
        (&["replay"], OTHER_SHAPE, &[], "differs 1\n"),
        (&["renew"], OTHER_SHAPE, &[], "differs 1\n"),
        (&["rounds"], OTHER_SHAPE, &[], "differs 1\n"),
        (&["elect"], OTHER_SHAPE, &[], "refused 0 NotErosion\n"),
        (TO_START, OTHER_TURN, &[], "differs 0\n"),
        (&["rewind", "2"], OTHER_TURN, &[], "refused 0 BadPlace\n"),
    ];
    for (words, document, failing, line) in lines {
        let mut input = MemSource::new(rt.alloc(), document.as_bytes(), PIECE, failing)?;
        let room = line.len().saturating_sub(1).min(100) as u32;
        let mut out = MemSink::new(rt.alloc(), room, PIECE, &[])?;
        let ended = call(&rt, rt.alloc(), words, &mut input, &mut out)?;
        assert!(rt; ended.status == Status::WriteFault);
        assert!(rt; line.as_bytes().starts_with(out.bytes()));
        assert!(rt; out.bytes().len() == (room as usize));
    }
    Ok(())
}

/// A journal whose last shape is that of the start.
const OTHER_SHAPE: &str = "amoebot 1 program action out when contracted move expand head 0 end \
    shape area 0 0 8 8 bot 2 3 2 3 0 + end \
    journal entry 0 0 0 0 0 expand head 0 spot 3 3 0 body 0 3 3 2 3 0 + end \
    final area 0 0 8 8 bot 2 3 2 3 0 + end";

/// A journal of one entry, whose amoebot was turned otherwise before.
/// So nothing leads to its last shape.
const OTHER_TURN: &str = "amoebot 3 program action out when contracted move expand head 0 end \
    shape area 0 0 8 8 bot 2 3 2 3 0 + end \
    journal entry 0 0 0 0 0 expand head 0 spot 3 3 empty to 0 body 0 2 3 2 3 1 + to 3 3 2 3 0 + end \
    final area 0 0 8 8 bot 3 3 2 3 0 + end";

/// The first read of the source would fail, and a second one would not.
pub(crate) fn unread(alloc: Global) -> Result<MemSource, Fail> {
    Ok(MemSource::new(alloc, b"amoebot 1", PIECE, &[0])?)
}

/// Whether no read of such a source was made: the next one is the first.
pub(crate) fn is_unread(source: &mut MemSource) -> bool {
    let mut piece = [0u8; 1];
    source.read(&mut piece) == Err(Failed)
}
