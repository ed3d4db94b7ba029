ghost use Rattle.std.specs.Prelude.{◌≡◌, ◌≤◌, ◌<◌, length, IfOk, OnErr};
ghost use Rattle.std.specs.declared.option.Option.TheVariants.{Some, None};
ghost use Rattle.outer_io.specs.{Told.{Rose, TakesFront}, CallPlans.{fresh_plan}};
ghost use Rattle.outer_io.specs.MemWrites.{MemWrite, MemWritesAreOne, TornWrites, empty_room, taken_of};

use crate::errors::{Failed, NoMemory};
use crate::plan::Plan;
use crate::sink::Sink;
use std::alloc::Global;
use std::marker::Model;

/// A sink into memory of a fixed room, of which some writes fail by plan,
/// and each one once the room is full.
#[derive(Drop)]
pub struct MemSink {
    plan: Plan,
    bytes: Vec<u8>,
    room: usize,
}

impl Model for MemSink {
    ghost use Rattle.std.specs.Prelude.{◌≤◌, vec_len, vec_capacity};
    ghost use Rattle.outer_io.specs.MemWrites.{PlannedRoom};

    ghost Value = { PlannedRoom };

    ghost view = { λ sink. record { plan = sink.plan; room = sink.room; bytes = sink.bytes.items } };

    ghost invariant = { λ sink. (vec_len sink.bytes ≤ sink.room) × (sink.room ≤ vec_capacity sink.bytes) };
}

impl MemSink {
    /// A sink with room for this many bytes, which takes at most `piece` bytes a write.
    ///
    /// It takes the memory for all of them now, and none later.
    /// The writes are counted from 0, and one fails exactly where its number is in `failing`,
    /// or no room is left.
    pub fn new(alloc: Global, room: u32, piece: u32, failing: &[u32]) -> Result<MemSink, NoMemory>
        requires { 1 ≤ piece }
        ensures { IfOk result (λ sink. sink ≡ empty_room (fresh_plan piece failing.now) room) }
    {
        let room = room as usize;
        let bytes = Vec::with_capacity(alloc, room)?;
        let plan = Plan::new(alloc, piece, failing)?;
        Ok(MemSink { plan, bytes, room })
    }

    /// The bytes that were taken.
    pub fn bytes(&self) -> &[u8]
        ensures { result.now ≡ self.now.bytes }
    {
        self.bytes.as_slice()
    }
}

impl Sink for MemSink {
    ghost written = { λ sink. Some sink.bytes };

    ghost faults = { λ sink. sink.plan.faults };

    ghost takes = { λ old piece taken new. MemWrite old piece (Some taken) new };

    ghost fails = { λ old piece new. MemWrite old piece None new };

    /// Takes as many bytes as the plan and the room let pass,
    /// or fails by plan or since no room is left.
    fn write(&mut self, piece: &[u8]) -> Result<usize, Failed>
        requires { 0 < length piece.now }
        ensures bound { IfOk result (λ taken. (1 ≤ taken) × (taken ≤ length piece.now)) }
        ensures bytes { TakesFront (Some self.old.bytes) (Some self.new.bytes) result piece.now }
        ensures never_falls { self.old.plan.faults ≤ self.new.plan.faults }
        ensures cause { OnErr result (Rose self.old.plan.faults self.new.plan.faults) }
        ensures exact { MemWrite self.old piece.now (taken_of result) self.new }
    {
        let free = self.room - self.bytes.len();
        if free == 0 || self.plan.fails_next() {
            self.plan.note_failed_call();
            return Err(Failed);
        }
        let count = piece.len().min(self.plan.piece()).min(free);
        if self.bytes.extend_from_slice(&piece[..count]).is_err() {
            unreachable!();
        }
        self.plan.note_good_call();
        Ok(count)
    }
}

/// A write to a `MemSink` has at most one answer.
pub fn mem_writes_are_one()
    ensures { MemWritesAreOne }
{}

/// Writes of four bytes to a room of three: two of them, a fault by plan, the next one,
/// and a fault since the room is full.
pub fn torn_writes()
    ensures { TornWrites }
{}
