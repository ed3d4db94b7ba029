ghost use Rattle.std.specs.Prelude.{◌≤◌};
ghost use Rattle.claim_core.specs.Limits.{most_callers};

use activation::Gate;
use std::sync::atomic::{AtomicBool, AtomicU64, Ordering};
use std::thread;

/// A gate at which callers wait for one another for a while.
/// It shows that workers run beside one another: one after another they would not meet.
/// What it has counted is shared by the threads and said by no contract.
#[derive(Drop)]
pub struct MeetGate {
    callers: u8,
    limit: u64,
    counts: [AtomicU64; 16],
    missed: AtomicBool,
}

impl MeetGate {
    /// A gate for so many callers, at which each waits for at most so many looks in a turn.
    pub fn new(callers: u8, limit: u64) -> MeetGate
        requires { (1 ≤ callers) × (callers ≤ most_callers) }
    {
        MeetGate {
            callers,
            limit,
            counts: [
                AtomicU64::new(0),
                AtomicU64::new(0),
                AtomicU64::new(0),
                AtomicU64::new(0),
                AtomicU64::new(0),
                AtomicU64::new(0),
                AtomicU64::new(0),
                AtomicU64::new(0),
                AtomicU64::new(0),
                AtomicU64::new(0),
                AtomicU64::new(0),
                AtomicU64::new(0),
                AtomicU64::new(0),
                AtomicU64::new(0),
                AtomicU64::new(0),
                AtomicU64::new(0),
            ],
            missed: AtomicBool::new(false),
        }
    }

    /// Whether every caller came at least once, and each call found all callers in its turn,
    /// or past it, within its looks.
    pub fn met(&self) -> bool {
        self.have_reached(1) && !self.missed.load(Ordering::SeqCst)
    }

    /// Whether the count of each caller is at least this.
    fn have_reached(&self, count: u64) -> bool {
        self.counts
            .iter()
            .take(usize::from(self.callers))
            .all(|reached| reached.load(Ordering::SeqCst) >= count)
    }
}

impl Gate for MeetGate {
    /// Notes that the caller has come to this turn, and looks until all callers have,
    /// or the looks are used up.
    /// A number that is no caller's is ignored.
    fn claimed(&self, caller: u8, turn: u32) {
        let count = u64::from(turn) + 1;
        match self.counts.get(usize::from(caller)) {
            Some(own) if caller < self.callers => own.store(count, Ordering::SeqCst),
            _ => return,
        }
        for _look in 0..self.limit {
            if self.have_reached(count) {
                return;
            }
            thread::yield_now();
        }
        self.missed.store(true, Ordering::SeqCst);
    }
}
