//! A source in memory.
ghost use Rattle.std.specs.Prelude.{◌≡◌, ◌<◌, ◌≤◌, length, take, IfOk, OnOk, OnErr, Some};
ghost use Rattle.std.specs.Result.{result_ok};
ghost use Rattle.outside_io.specs.Bytes.{TakesFront, IsEnded};

use crate::failed::Failed;
use crate::faults::Faults;
use crate::plan::Plan;
use crate::source::Source;
use lists::{Bytes, Listed};

/// Gives bytes that are in memory, in pieces of given sizes, and fails at given calls. It takes no memory.
#[derive(Drop)]
pub struct MemSource {
    bytes: Bytes,
    at: usize,
    plan: Plan,
    faults: Faults,
    ghost inside: { at ≤ length bytes },
}

impl MemSource {
    /// A source of these bytes. The read of number i, from 0, gives at most the size at i of `pieces`, at least
    /// one byte, and as many as there is room for where `pieces` has no size at i. It fails where i is in `failing`.
    pub fn new(bytes: Bytes, pieces: Listed<usize>, failing: Listed<u64>) -> MemSource
        ensures left { ⟦<MemSource as Source>⟧.left result ≡ Some bytes }
        ensures faults { ⟦<MemSource as Source>⟧.faults result ≡ 0 }
        ensures plan { result.plan ≡ record { pieces = pieces; failing = failing; calls = 0 } }
    {
        MemSource {
            bytes,
            at: 0,
            plan: Plan::new(pieces, failing),
            faults: Faults::new(),
        }
    }
}

impl Source for MemSource {
    ghost use Rattle.outside_io.specs.Memory.{left_of, read_of};
    ghost use Rattle.outside_io.specs.Plan.{called};

    ghost faults = { λ s. s.faults.count };

    ghost left = { λ s. Some (left_of s) };

    fn read(&mut self, into: &mut [u8]) -> Result<usize, Failed>
        requires { 0 < length into.old }
        ensures within { IfOk result (λ n. n ≤ length into.new) }
        ensures given { IfOk result
            (λ n. TakesFront (Some (left_of self.old)) (take n into.new) (Some (left_of self.new))) }
        ensures ended { IfOk result (λ n. n ≡ 0 → IsEnded (Some (left_of self.new))) }
        ensures failed { OnErr result (Some (left_of self.new) ≡ Some (left_of self.old)) }
        ensures steady { OnOk result (self.new.faults.count ≡ self.old.faults.count) }
        ensures counted { OnErr result (self.old.faults.count < self.new.faults.count) }

        // Beside what each source promises.
        ensures exact { result_ok result ≡ read_of self.old (length into.new) }
        ensures called { self.new.plan ≡ called self.old.plan }
    {
        let Some(most) = self.plan.next(into.len()) else {
            self.faults.rise();
            return Err(Failed);
        };
        let left = &self.bytes.as_slice()[self.at..];
        let read = most.min(left.len());
        into[..read].copy_from_slice(&left[..read]);
        self.at += read;
        Ok(read)
    }
}
