use std::sync::atomic::{AtomicU64, Ordering};
use std::thread;

/// How often a worker that waits lets other threads go first.
/// After so many times it waits no longer.
const TIMES: u32 = 100;

/// How often it looks before the first time: a microsecond or two long.
/// Between two times it looks twice as often as before,
/// since who looks has a processor that another worker may need.
const LOOKS: u32 = 4_000;

/// Where there are more workers than this, few of them have a processor at a time.
const MANY: u64 = 8;

/// How often each of so many looks before the first time.
/// Who looks takes a processor from one that could make its turn.
const LOOKS_OF_MANY: u32 = 50;

/// The most looks between two times, some tenths of a millisecond.
const MOST_LOOKS: u32 = 524_288;

/// So many turns of each list are made in the order of the lists, one after the other.
/// What a run comes to may depend on who was first there, and so each run begins alike.
const IN_ORDER: u64 = 12;

/// How often a worker lets other threads go first before such a turn.
/// After so many times, and for all turns that follow, there is no order.
const TIMES_IN_ORDER: u32 = 20;

/// A worker that has made some turns is ahead while the others together lack too many to have made
/// as many each: more than one for each worker, and so many.
const APART: u64 = 2;

/// In lists of so many turns the others may lack one turn more for each worker while they do
/// not move, and as if there were four workers where there are fewer.
const LOOSER: u64 = 256;

const AS_FEW: u64 = 4;

/// So many times as many turns may they lack after a worker has waited in vain.
const FURTHER: u64 = 8;

/// They never lack so many turns.
const ANY: u64 = 1 << 40;

/// Where workers begin together and keep step, if they can.
/// What it has counted is shared by the threads and said by no contract.
#[derive(Drop)]
pub(crate) struct Start {
    workers: u64,
    looks: u32,
    begun: AtomicU64,
    made: AtomicU64,
    in_order: AtomicU64,
    apart: AtomicU64,
}

impl Start {
    /// The start of so many workers, of whom none has begun.
    pub(crate) fn of(workers: u8) -> Start {
        let workers = u64::from(workers);
        Start {
            workers,
            looks: if workers > MANY { LOOKS_OF_MANY } else { LOOKS },
            begun: AtomicU64::new(0),
            made: AtomicU64::new(0),
            in_order: AtomicU64::new(IN_ORDER),
            apart: AtomicU64::new(workers.wrapping_add(APART)),
        }
    }

    /// Notes that one more worker begins, and waits until all have begun, for a bounded time.
    /// If they have not, nobody waits any more, here or in `pace`:
    /// where no thread could be started, some workers begin only after others have ended.
    pub(crate) fn begin(&self) {
        self.begun.fetch_add(1, Ordering::SeqCst);
        let mut looks = self.looks;
        for _time in 0..TIMES {
            if reaches(&self.begun, self.workers, looks) {
                return;
            }
            thread::yield_now();
            looks = longer(looks);
        }
        if self.begun.load(Ordering::SeqCst) < self.workers {
            self.begun.store(self.workers, Ordering::SeqCst);
            self.apart.store(ANY, Ordering::SeqCst);
        }
    }

    /// Waits before the first turns of a caller until it is the next one, for a bounded time:
    /// until all callers have made the turns before, and those below it this one too.
    pub(crate) fn await_order(&self, caller: u8, turn: u32) {
        let turn = u64::from(turn);
        if turn >= IN_ORDER || turn >= self.in_order.load(Ordering::SeqCst) {
            return;
        }
        let before = turn
            .wrapping_mul(self.workers)
            .wrapping_add(u64::from(caller));
        let mut looks = self.looks;
        for _time in 0..TIMES_IN_ORDER {
            if reaches(&self.made, before, looks) {
                return;
            }
            thread::yield_now();
            looks = longer(looks);
        }
        self.in_order.store(0, Ordering::SeqCst);
    }

    /// Notes that a worker has made its turn `turn` of `turns`, and waits while it is ahead,
    /// for a bounded time.
    /// Without a wait the others may lack `lack` turns; the answer is what they may lack next time.
    pub(crate) fn pace(&self, turn: u32, turns: u32, lack: u64) -> u64 {
        let own = u64::from(turn).wrapping_add(1).wrapping_mul(self.workers);
        let made = self.made.fetch_add(1, Ordering::SeqCst).wrapping_add(1);
        if made.saturating_add(lack) >= own {
            return lack;
        }
        self.wait(own, turns, lack)
    }

    /// Waits until all workers together have made as many turns as `own`,
    /// except for what they may lack.
    /// - Where they come to it while the worker only looks, its next steps are tighter.
    /// - Each time that it lets other threads go first its steps are looser,
    ///   up to a bound that grows with the lists.
    ///   Where other processes have the processors, one time may take as long as a thousand turns.
    /// - After the last time the steps of all are looser for good, so in the end nobody waits.
    fn wait(&self, own: u64, turns: u32, lack: u64) -> u64 {
        let least = self.apart.load(Ordering::SeqCst);
        let more = u64::from(turns).wrapping_mul(self.workers.max(AS_FEW)) / LOOSER;
        let most = least.saturating_add(more);
        let mut lack = lack.max(least);
        if reaches(&self.made, own.saturating_sub(lack), self.looks) {
            return (lack / 2).max(least);
        }
        let mut looks = self.looks;
        for _time in 0..TIMES {
            thread::yield_now();
            lack = lack.saturating_mul(2).min(most);
            if reaches(&self.made, own.saturating_sub(lack), looks) {
                return lack;
            }
            looks = longer(looks);
        }
        self.apart
            .store(least.saturating_mul(FURTHER), Ordering::SeqCst);
        lack
    }
}

/// Looks at a count until it has come to a number, so many times at most.
fn reaches(count: &AtomicU64, number: u64, looks: u32) -> bool {
    for _look in 0..looks {
        if count.load(Ordering::SeqCst) >= number {
            return true;
        }
    }
    false
}

/// Twice as many looks, up to the most.
fn longer(looks: u32) -> u32 {
    looks.saturating_mul(2).min(MOST_LOOKS)
}
