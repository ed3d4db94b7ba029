ghost use Rattle.std.specs.declared.option.Option.{Option};

use crate::failures::{is_unread, unread};
use crate::faults::FAULTS;
use crate::rows::{COMPARED_AND_CHECKED, INTERLEAVINGS, MEASURED, NO_COMMANDS, SHOWN};
use crate::runs::{RUNS, WHOLE_PROGRAMS};
use activation::NoGate;
use amoebot_run::{Ended, Status, run};
use arrayvec::ArrayVec;
use outer_io::{Failed, Sink, Source, SureSink, SureSource};
use std::alloc::{AllocError, Global};
use std::process::Abort;
use std::sync::Wait;
use std::test::Fail;
use std::thread::Threads;
use tests_shared::calls::{check, check_faults, check_rows, words, words_of};
use tests_shared::pieces::USAGE;
use text_tokens::{Refusal, RefusalKind};

/// The worked example on one line.
const ON_ONE_LINE: &str =
    "amoebot 1 program action out when contracted move expand head 0 end shape area 0 0 8 8 bot 2 3 2 3 0 + \
                    end lists turns 2 list 0 end";

/// Calls `run` with the words.
pub(crate) fn call<R: Threads + Wait + Sync, S: Source, K: Sink>(
    rt: &R,
    alloc: Global,
    texts: &[&str],
    input: &mut S,
    out: &mut K,
) -> Result<Ended, AllocError> {
    let words = words(alloc, texts)?;
    Ok(run(rt, alloc, words.as_slice(), input, out, &NoGate))
}

/// The call ended so, and wrote this text and all of it.
pub(crate) fn says(rt: &impl Abort, ended: &Ended, out: &SureSink, status: Status, text: &str) {
    assert!(rt; ended.status == status);
    assert!(rt; out.bytes() == text.as_bytes());
    assert!(rt; out.whole());
}

/// Neither a report nor turns nor tickets came.
pub(crate) fn has_nothing(rt: &impl Abort, ended: &Ended) {
    assert!(rt; ended.report.is_none());
    assert!(rt; ended.turns.is_none() && ended.tickets.is_none());
}

/// Calls `run` with the words, and compares the status and what is written of it. No report comes.
fn check_line<R: Abort + Threads + Wait + Sync, S: Source>(
    rt: &R,
    alloc: Global,
    texts: &[&str],
    input: &mut S,
    status: Status,
    line: &str,
) -> Result<(), Fail> {
    let mut out = SureSink::new(alloc, 4096)?;
    let ended = call(rt, alloc, texts, input, &mut out)?;
    says(rt, &ended, &out, status, line);
    has_nothing(rt, &ended);
    Ok(())
}

#[test]
fn lists_are_run(rt: HostRuntime) -> Result<(), Fail> {
    check_rows(&rt, rt.alloc(), &RUNS)
}

#[test]
fn schedules_are_followed(rt: HostRuntime) -> Result<(), Fail> {
    check_rows(&rt, rt.alloc(), &INTERLEAVINGS)
}

#[test]
fn whole_programs_are_run(rt: HostRuntime) -> Result<(), Fail> {
    check_rows(&rt, rt.alloc(), &WHOLE_PROGRAMS)
}

#[test]
fn journals_are_compared_and_programs_printed(rt: HostRuntime) -> Result<(), Fail> {
    check_rows(&rt, rt.alloc(), &COMPARED_AND_CHECKED)
}

#[test]
fn shapes_are_measured(rt: HostRuntime) -> Result<(), Fail> {
    check_rows(&rt, rt.alloc(), &MEASURED)
}

#[test]
fn first_faults_are_told(rt: HostRuntime) -> Result<(), Fail> {
    check_faults(&rt, rt.alloc(), &FAULTS)
}

/// As many blanks as a document may have bytes, and one more.
#[test]
fn looks_at_no_document_above_the_limit(rt: HostRuntime) -> Result<(), Fail> {
    let mut blanks = vec![in rt.alloc(); b' '; 1_048_576]?;
    for (line, kind, text) in [
        (1, RefusalKind::Truncated, "refused 1 Truncated\n"),
        (0, RefusalKind::TooLong, "refused 0 TooLong\n"),
    ] {
        let status = Status::Refused(Refusal { line, kind });
        for word in ["run", "tickets", "interleave", "check"] {
            check(
                &rt,
                rt.alloc(),
                &[word],
                blanks.as_slice(),
                status,
                None,
                text,
            )?;
        }
        blanks.push(b' ')?;
    }
    for word in ["replay", "renew", "rounds", "elect"] {
        check(
            &rt,
            rt.alloc(),
            &[word],
            blanks.as_slice(),
            Status::Refused(Refusal {
                line: 1,
                kind: RefusalKind::Truncated,
            }),
            None,
            "refused 1 Truncated\n",
        )?;
    }
    Ok(())
}

/// A source of comments, which fails after so many reads. It tells nothing of its calls.
#[derive(Drop)]
struct FailingSource {
    good: u32,
    faults: u64,
}

impl Source for FailingSource {
    ghost use Rattle.std.specs.declared.option.Option.TheVariants.{None};

    ghost left = { λ _. None };

    ghost faults = { λ source. source.faults };

    fn read(&mut self, piece: &mut [u8]) -> Result<usize, Failed> {
        if self.good == 0 {
            self.faults = self.faults.saturating_add(1);
            return Err(Failed);
        }
        self.good -= 1;
        piece[0] = b'#';
        Ok(1)
    }
}

/// A sink that takes ten bytes at a time, and fails after so many writes.
/// It tells nothing of its calls.
#[derive(Drop)]
struct FailingSink {
    good: u32,
    taken: ArrayVec<u8, 64>,
    faults: u64,
}

impl Sink for FailingSink {
    ghost use Rattle.std.specs.declared.option.Option.TheVariants.{None};

    ghost written = { λ _. None };

    ghost faults = { λ sink. sink.faults };

    fn write(&mut self, piece: &[u8]) -> Result<usize, Failed> {
        if self.good == 0 {
            self.faults = self.faults.saturating_add(1);
            return Err(Failed);
        }
        self.good -= 1;
        let count = piece.len().min(10);
        let _ = self.taken.try_extend_from_slice(&piece[..count]);
        Ok(count)
    }
}

/// Calls `run` with the words, as above. Nothing is read.
fn check_unread<R: Abort + Threads + Wait + Sync>(
    rt: &R,
    alloc: Global,
    texts: &[&str],
    status: Status,
    line: &str,
) -> Result<(), Fail> {
    let mut input = unread(alloc)?;
    check_line(rt, alloc, texts, &mut input, status, line)?;
    assert!(rt; is_unread(&mut input));
    Ok(())
}

#[test]
fn judges_the_words_before_it_reads(rt: HostRuntime) -> Result<(), Fail> {
    for line in NO_COMMANDS.lines() {
        let texts = words_of(rt.alloc(), line)?;
        check_unread(&rt, rt.alloc(), texts.as_slice(), Status::Words, USAGE)?;
    }
    Ok(())
}

#[test]
fn shipped_programs_are_shown_and_nothing_is_read(rt: HostRuntime) -> Result<(), Fail> {
    for (name, text) in &SHOWN {
        check_unread(&rt, rt.alloc(), &["show", name], Status::Done, text)?;
    }
    Ok(())
}

#[test]
fn a_sample_is_told_in_six_lines_and_nothing_is_read(rt: HostRuntime) -> Result<(), Fail> {
    for (number, line) in [("1", "sample 1\n"), ("0000000023", "sample 23\n")] {
        let mut input = unread(rt.alloc())?;
        let mut out = SureSink::new(rt.alloc(), 4096)?;
        let Ended {
            status,
            report,
            turns,
            tickets,
        } = call(&rt, rt.alloc(), &["sample", number], &mut input, &mut out)?;
        assert!(rt; status == Status::Done);
        let mut lines = String::from_str(rt.alloc(), line)?;
        lines.push_str("bots 150\ncallers 4\nturns 16000\nconnected yes\nreplay yes\n")?;
        assert!(rt; out.bytes() == lines.as_bytes());
        assert!(rt; is_unread(&mut input));
        assert!(rt; turns.is_some() && tickets.is_none());
        let report = report.ok_or("a report")?;
        assert!(rt; report.world.bots() == 150);
        assert!(rt; report.turns.callers() == 4);
        for caller in 0..report.turns.callers() {
            assert!(rt; report.turns.count(caller) == 4000);
        }
        assert!(rt; !report.journal.entries().is_empty());
    }
    Ok(())
}

#[test]
fn answers_a_read_that_fails(rt: HostRuntime) -> Result<(), Fail> {
    for good in [0, 3] {
        let mut input = FailingSource { good, faults: 0 };
        check_line(
            &rt,
            rt.alloc(),
            &["run"],
            &mut input,
            Status::ReadFault,
            "read fault\n",
        )?;
    }
    Ok(())
}

#[test]
fn answers_a_write_that_fails(rt: HostRuntime) -> Result<(), Fail> {
    let writes: [(&[&str], u32, &str); 3] = [
        (&["run"], 1, "journal\nen"),
        (&["run"], 0, ""),
        (&["walk"], 2, "usage: run / interle"),
    ];
    for (texts, good, taken) in writes {
        let mut input = SureSource::new(rt.alloc(), ON_ONE_LINE.as_bytes())?;
        let mut out = FailingSink {
            good,
            taken: ArrayVec::new(),
            faults: 0,
        };
        let ended = call(&rt, rt.alloc(), texts, &mut input, &mut out)?;
        assert!(rt; ended.status == Status::WriteFault);
        assert!(rt; ended.report.is_none());
        assert!(rt; out.taken.as_slice() == taken.as_bytes());
    }
    Ok(())
}

#[test]
fn each_status_has_its_number(rt: HostRuntime) -> Result<(), Fail> {
    let numbers = [
        (Status::Done, 0),
        (Status::Words, 2),
        (
            Status::Refused(Refusal {
                line: 0,
                kind: RefusalKind::TooLong,
            }),
            3,
        ),
        (Status::ReadFault, 4),
        (Status::WriteFault, 5),
        (Status::NoMemory, 6),
        (Status::Differs(0), 7),
    ];
    for (status, number) in numbers {
        assert!(rt; status.number() == number);
    }
    Ok(())
}
