//! A decider that counts its decisions.

use amoebot_state::{Decider, Found, Verdict};
use std::sync::atomic::{AtomicU64, Ordering};

/// Decides as another one, and counts its decisions.
#[derive(Drop)]
pub struct Counting<D: Decider> {
    decider: D,
    decisions: AtomicU64,
}

impl<D: Decider> Counting<D> {
    pub fn new(decider: D) -> Counting<D> {
        Counting {
            decider,
            decisions: AtomicU64::new(0),
        }
    }

    /// How many decisions there were since the last call.
    pub fn taken(&self) -> u64 {
        self.decisions.swap(0, Ordering::SeqCst)
    }
}

impl<D: Decider> Decider for Counting<D> {
    ghost verdict = { λ d. D.verdict d.decider };

    fn decide(&self, found: &Found) -> Verdict {
        self.decisions.fetch_add(1, Ordering::SeqCst);
        self.decider.decide(found)
    }

    ghost is_lawful = { λ d. D.is_lawful d.decider };
}
