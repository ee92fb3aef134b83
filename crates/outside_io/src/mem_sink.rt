//! A sink in memory.
ghost use Rattle.std.specs.Prelude.{◌≡◌, ◌<◌, ◌≤◌, ◌-◌, [], length, take, IfOk, OnOk, OnErr, Some, vec_capacity};
ghost use Rattle.std.specs.Result.{result_ok};
ghost use Rattle.outside_io.specs.Bytes.{Appends};

use crate::failed::Failed;
use crate::faults::Faults;
use crate::plan::Plan;
use crate::sink::Sink;
use lists::{Listed, NoMemory};
use std::alloc::Global;

/// Takes bytes into a stated room, in pieces of given sizes, and fails at given calls and where the room is full.
/// Its room was reserved, so a write takes no memory.
#[derive(Drop)]
pub struct MemSink {
    bytes: Vec<u8>,
    room: usize,
    plan: Plan,
    faults: Faults,
    ghost reserved: { room ≤ vec_capacity bytes },
}

impl MemSink {
    /// An empty sink with room for so many bytes. The write of number i, from 0, takes at most the size at i of
    /// `pieces`, at least one byte, and all where `pieces` has no size at i. It fails where i is in `failing`, and
    /// where there is no room for what it would take. Refused for want of memory alone.
    pub fn new(
        alloc: Global,
        room: usize,
        pieces: Listed<usize>,
        failing: Listed<u64>,
    ) -> Result<MemSink, NoMemory>
        ensures written { IfOk result (λ sink. ⟦<MemSink as Sink>⟧.written sink ≡ Some []) }
        ensures faults { IfOk result (λ sink. ⟦<MemSink as Sink>⟧.faults sink ≡ 0) }
        ensures room { IfOk result (λ sink. sink.room ≡ room) }
        ensures plan { IfOk result
            (λ sink. sink.plan ≡ record { pieces = pieces; failing = failing; calls = 0 }) }
    {
        Ok(MemSink {
            bytes: Vec::with_capacity(alloc, room)?,
            room,
            plan: Plan::new(pieces, failing),
            faults: Faults::new(),
        })
    }

    /// The bytes written.
    pub fn bytes(&self) -> &[u8]
        ensures { ⟦<MemSink as Sink>⟧.written self.now ≡ Some result.now }
    {
        self.bytes.as_slice()
    }
}

impl Sink for MemSink {
    ghost use Rattle.outside_io.specs.Memory.{write_of};
    ghost use Rattle.outside_io.specs.Plan.{called};

    ghost faults = { λ s. s.faults.count };

    ghost written = { λ s. Some s.bytes.items };

    fn write(&mut self, from: &[u8]) -> Result<usize, Failed>
        requires { 0 < length from.now }
        ensures some { IfOk result (λ n. 1 ≤ n) }
        ensures within { IfOk result (λ n. n ≤ length from.now) }
        ensures given { IfOk result
            (λ n. Appends (Some self.old.bytes.items) (take n from.now) (Some self.new.bytes.items)) }
        ensures failed { OnErr result (Some self.new.bytes.items ≡ Some self.old.bytes.items) }
        ensures steady { OnOk result (self.new.faults.count ≡ self.old.faults.count) }
        ensures counted { OnErr result (self.old.faults.count < self.new.faults.count) }

        // Beside what each sink promises.
        ensures exact { result_ok result ≡ write_of self.old (length from.now) }
        ensures called { self.new.plan ≡ called self.old.plan }
        ensures room { self.new.room ≡ self.old.room }
    {
        let Some(most) = self.plan.next(from.len()) else {
            self.faults.rise();
            return Err(Failed);
        };
        if most > self.room.saturating_sub(self.bytes.len()) {
            self.faults.rise();
            return Err(Failed);
        }
        match self.bytes.extend_from_slice(&from[..most]) {
            Ok(()) => Ok(most),
            Err(_) => unreachable!(),
        }
    }
}
