use activation::Gate;
use std::thread;

/// A gate that lets other threads go first, so that zones are held for a while.
pub struct YieldGate;

impl Gate for YieldGate {
    fn claimed(&self, _caller: u8, _turn: u32) {
        for _time in 0..20 {
            thread::yield_now();
        }
    }
}
