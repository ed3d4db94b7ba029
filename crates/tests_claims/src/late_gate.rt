use activation::Gate;
use claim_core::{Mark, Marks};
use std::sync::atomic::{AtomicBool, AtomicU64, Ordering};
use std::thread;

/// A gate that holds some callers in their first turn, with a zone claimed and nothing committed.
/// Each waits until every other caller has come in its last turn, and then for a while.
/// Or its looks are used up, and then it has missed them.
#[derive(Drop)]
pub struct LateGate {
    held: u8,
    others: u8,
    last: u32,
    times: u32,
    came: AtomicU64,
    missed: AtomicBool,
}

impl LateGate {
    /// Holds the callers below `held`, until so many others have come in turn `last`.
    /// Then these callers let other threads go first so many times, in which the others can end.
    pub fn new(held: u8, others: u8, last: u32, times: u32) -> LateGate {
        LateGate {
            held,
            others,
            last,
            times,
            came: AtomicU64::new(0),
            missed: AtomicBool::new(false),
        }
    }

    /// Whether a caller that was held has not met the others.
    pub fn missed(&self) -> bool {
        self.missed.load(Ordering::SeqCst)
    }

    fn wait(&self) {
        for _look in 0..50_000_000u32 {
            if self.came.load(Ordering::SeqCst) == u64::from(self.others) {
                self.linger();
                return;
            }
            thread::yield_now();
        }
        self.missed.store(true, Ordering::SeqCst);
    }

    fn linger(&self) {
        for _time in 0..self.times {
            thread::yield_now();
        }
    }
}

impl Gate for LateGate {
    fn claimed(&self, caller: u8, turn: u32) {
        if caller < self.held && turn == 0 {
            self.wait();
        }
        if caller >= self.held && turn == self.last {
            self.came.fetch_add(1, Ordering::SeqCst);
        }
    }
}

/// Whether each of four callers has so many turns, all Done,
/// and those of caller 0 come behind all entries of the others but the last of each.
pub fn is_late(marks: &Marks, turns: u32) -> bool {
    let least = turns.saturating_sub(1).saturating_mul(3);
    marks.callers() == 4
        && are_done_from(marks, 0, turns, least)
        && (1..4).all(|caller| are_done_from(marks, caller, turns, 0))
}

/// Whether the caller has so many turns, and each is Done at this place or behind it.
fn are_done_from(marks: &Marks, caller: u8, turns: u32, least: u32) -> bool {
    if caller >= marks.callers() || marks.count(caller) != turns {
        return false;
    }
    for turn in 0..turns {
        let place = match marks.mark(caller, turn) {
            Mark::Done { place } => Some(place),
            Mark::Idle { .. } | Mark::Failed { .. } | Mark::Busy { .. } => None,
        };
        if !place.is_some_and(|place| place >= least) {
            return false;
        }
    }
    true
}
