ghost use Rattle.std.specs.Prelude.{◌≡◌, ◌≤◌, ◌<◌, length, IfOk, OnErr};
ghost use Rattle.std.specs.{declared.option.Option.TheVariants.{Some}, Io.{ReadsAtMost}};
ghost use Rattle.std.specs.Io.KnownBytes.{ReadConsumes};
ghost use Rattle.outer_io.specs.{Told.{Rose}, Calls.{Calls}, CallPlans.{fresh_plan}};
ghost use Rattle.outer_io.specs.MemReads.{MemRead, MemGives, MemFails, MemReadsAreOne, TornReads, given_of};

use crate::errors::{Failed, NoMemory};
use crate::plan::Plan;
use crate::source::Source;
use std::alloc::Global;
use std::marker::Model;

/// A source over bytes in memory, of which some reads fail by plan.
#[derive(Drop)]
pub struct MemSource {
    plan: Plan,
    bytes: Vec<u8>,
    from: usize,
}

impl Model for MemSource {
    ghost use Rattle.std.specs.Prelude.{◌≤◌, drop, vec_len};
    ghost use Rattle.outer_io.specs.MemReads.{PlannedBytes};

    ghost Value = { PlannedBytes };

    ghost view = { λ source. record { plan = source.plan; bytes = drop source.from source.bytes.items } };

    ghost invariant = { λ source. source.from ≤ vec_len source.bytes };
}

impl MemSource {
    /// A source of a copy of these bytes, which gives at most `piece` bytes a read.
    ///
    /// The reads are counted from 0, and one fails exactly where its number is in `failing`.
    pub fn new(
        alloc: Global,
        bytes: &[u8],
        piece: u32,
        failing: &[u32],
    ) -> Result<MemSource, NoMemory>
        requires { 1 ≤ piece }
        ensures { IfOk result (λ source.
            source ≡ record { plan = fresh_plan piece failing.now; bytes = bytes.now }) }
    {
        let plan = Plan::new(alloc, piece, failing)?;
        let bytes = Vec::from_slice(alloc, bytes)?;
        Ok(MemSource {
            plan,
            bytes,
            from: 0,
        })
    }

    /// The bytes that are left.
    fn left(&self) -> &[u8]
        ensures { result.now ≡ self.now.bytes }
    {
        &self.bytes[self.from..]
    }
}

impl Source for MemSource {
    ghost left = { λ source. Some source.bytes };

    ghost faults = { λ source. source.plan.faults };

    ghost gives = { MemGives };

    ghost fails = { MemFails };

    /// Reads as many bytes as the plan and the piece let pass, or fails by plan.
    fn read(&mut self, piece: &mut [u8]) -> Result<usize, Failed>
        requires { 0 < length piece.old }
        ensures bound { ReadsAtMost result piece.new }
        ensures bytes { ReadConsumes (Some self.old.bytes) (Some self.new.bytes) result piece.new }
        ensures call { Calls MemGives MemFails self.old self.new result piece.new }
        ensures never_falls { self.old.plan.faults ≤ self.new.plan.faults }
        ensures cause { OnErr result (Rose self.old.plan.faults self.new.plan.faults) }
        ensures exact { MemRead self.old (length piece.old) (given_of result piece.new) self.new }
    {
        if self.plan.fails_next() {
            self.plan.note_failed_call();
            return Err(Failed);
        }
        let left = self.left();
        let count = piece.len().min(self.plan.piece()).min(left.len());
        piece[..count].copy_from_slice(&left[..count]);
        self.plan.note_good_call();
        self.from += count;
        Ok(count)
    }
}

/// A read of a `MemSource` has at most one answer.
pub fn mem_reads_are_one()
    ensures { MemReadsAreOne }
{}

/// Reads of three bytes: two of them, a fault by plan, the last one, and the end.
pub fn torn_reads()
    ensures { TornReads }
{}
