ghost use Rattle.std.specs.Prelude.{◌≡◌, ◌≤◌, ◌↔◌, IfOk, IsTrue};
ghost use Rattle.outer_io.specs.CallPlans.{FailsNext, fresh_plan, after_good_call, after_failed_call};

use crate::errors::NoMemory;
use std::alloc::Global;
use std::marker::Model;

/// Which calls of an object in memory fail, and how many were made and failed.
#[derive(Drop)]
pub(crate) struct Plan {
    piece: usize,
    failing: Vec<u32>,
    calls: u64,
    faults: u64,
}

impl Model for Plan {
    ghost use Rattle.std.specs.Prelude.{◌≤◌};
    ghost use Rattle.outer_io.specs.CallPlans.{CallPlan};

    ghost Value = { CallPlan };

    ghost view = { λ plan. record {
      piece = plan.piece;
      failing = plan.failing.items;
      calls = plan.calls;
      faults = plan.faults;
    } };

    ghost invariant = { λ plan. 1 ≤ plan.piece };
}

impl Plan {
    pub(crate) fn new(alloc: Global, piece: u32, failing: &[u32]) -> Result<Plan, NoMemory>
        requires { 1 ≤ piece }
        ensures { IfOk result (λ plan. plan ≡ fresh_plan piece failing.now) }
    {
        let failing = Vec::from_slice(alloc, failing)?;
        Ok(Plan {
            piece: piece as usize,
            failing,
            calls: 0,
            faults: 0,
        })
    }

    /// The most bytes that one call passes.
    pub(crate) fn piece(&self) -> usize
        ensures value { result ≡ self.now.piece }
        ensures some { 1 ≤ result }
    {
        self.piece
    }

    /// Whether the next call is one of those that fail.
    pub(crate) fn fails_next(&self) -> bool
        ensures { IsTrue result ↔ FailsNext self.now }
    {
        let number = self.calls;
        self.failing
            .iter()
            .any(|failing| u64::from(*failing) == number)
    }

    /// Notes a call that did not fail.
    pub(crate) fn note_good_call(&mut self)
        ensures { self.new ≡ after_good_call self.old }
    {
        self.calls = self.calls.saturating_add(1);
    }

    /// Notes a call that failed.
    pub(crate) fn note_failed_call(&mut self)
        ensures value { self.new ≡ after_failed_call self.old }
        ensures never_falls { self.old.faults ≤ self.new.faults }
    {
        self.calls = self.calls.saturating_add(1);
        self.faults = self.faults.saturating_add(1);
    }
}
