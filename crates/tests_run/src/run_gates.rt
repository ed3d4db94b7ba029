//! Gates that are given to `run`: each turn of a document comes to them, and for a sample too.

use crate::meetings::{ON_THREADS, TWO_APART};
use crate::reports::right_report;
use activation::Gate;
use amoebot_run::{Ended, Status, run};
use claim_core::Mark;
use outer_io::{SureSink, SureSource};
use std::alloc::Global;
use std::process::Abort;
use std::sync::Wait;
use std::sync::atomic::{AtomicBool, AtomicU64, Ordering};
use std::test::Fail;
use std::thread;
use std::thread::Threads;
use tests_shared::calls::words;
use tests_shared::pieces::spelled;
use turn_workers::MeetGate;

/// Each turn waits in the gate, once it has claimed its zone,
/// until both callers have come to that turn.
/// One after another they would not meet.
fn two_meet<R: Abort + Threads + Wait + Sync>(
    rt: &R,
    alloc: Global,
    word: &str,
) -> Result<(), Fail> {
    let document = spelled(alloc, TWO_APART)?;
    let gate = MeetGate::new(2, 50_000_000);
    let report = right_report(rt, alloc, word, document.as_str(), &gate)?;
    assert!(rt; gate.met() && report.journal.entries().len() == 2);
    Ok(())
}

#[test]
fn two_callers_meet_in_each_turn(rt: HostRuntime) -> Result<(), Fail> {
    for word in ON_THREADS {
        two_meet(&rt, rt.alloc(), word)?;
    }
    Ok(())
}

/// Counts its calls.
/// The first call for caller 0 and the first one for caller 1 wait for each other,
/// for many looks at most.
#[derive(Drop)]
struct Pair {
    calls: AtomicU64,
    zero: AtomicBool,
    one: AtomicBool,
    missed: AtomicBool,
}

impl Pair {
    fn new() -> Pair {
        Pair {
            calls: AtomicU64::new(0),
            zero: AtomicBool::new(false),
            one: AtomicBool::new(false),
            missed: AtomicBool::new(false),
        }
    }

    fn met(&self) -> bool {
        self.zero.load(Ordering::SeqCst)
            && self.one.load(Ordering::SeqCst)
            && !self.missed.load(Ordering::SeqCst)
    }

    /// One of the two has come. At its first call it looks until the other has.
    fn meet(&self, own: &AtomicBool, other: &AtomicBool) {
        if own.load(Ordering::SeqCst) {
            return;
        }
        own.store(true, Ordering::SeqCst);
        for _look in 0..50_000_000u32 {
            if other.load(Ordering::SeqCst) {
                return;
            }
            thread::yield_now();
        }
        self.missed.store(true, Ordering::SeqCst);
    }
}

impl Gate for Pair {
    fn claimed(&self, caller: u8, _turn: u32) {
        self.calls.fetch_add(1, Ordering::SeqCst);
        match caller {
            0 => self.meet(&self.zero, &self.one),
            1 => self.meet(&self.one, &self.zero),
            _ => {}
        }
    }
}

/// Two workers of a sample meet, and each turn that is not Busy comes to the gate once.
/// While one of the two holds a zone, the other has amoebots far away in its list.
#[test]
fn workers_of_a_sample_meet_and_come_to_the_gate(rt: HostRuntime) -> Result<(), Fail> {
    let words = words(rt.alloc(), &["sample", "7"])?;
    let mut input = SureSource::new(rt.alloc(), &[])?;
    let mut out = SureSink::new(rt.alloc(), 4096)?;
    let gate = Pair::new();
    let Ended {
        status,
        report,
        turns: _,
        tickets: _,
    } = run(
        &rt,
        rt.alloc(),
        words.as_slice(),
        &mut input,
        &mut out,
        &gate,
    );
    assert!(rt; status == Status::Done);
    assert!(rt; gate.met());
    let marks = &report.ok_or("a report")?.turns;
    let mut calls: u64 = 0;
    for caller in 0..marks.callers() {
        for turn in 0..marks.count(caller) {
            if !matches!(marks.mark(caller, turn), Mark::Busy { .. }) {
                calls = calls.wrapping_add(1);
            }
        }
    }
    assert!(rt; gate.calls.load(Ordering::SeqCst) == calls);
    Ok(())
}
