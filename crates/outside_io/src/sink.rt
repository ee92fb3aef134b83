//! Where bytes are written to.
ghost use Rattle.std.specs.Prelude.{◌≡◌, ◌<◌, ◌≤◌, ℕ, List, length, take, IfOk, OnOk, OnErr};
ghost use Rattle.std.specs.declared.option.Option.{Option};
ghost use Rattle.outside_io.specs.Bytes.{Appends};

use crate::failed::Failed;

/// Takes bytes in order.
pub trait Sink {
    /// How many faults there were.
    ghost faults: { Self → ℕ };

    /// The bytes written, where the sink tells them.
    ghost written: { Self → Option (List ℕ) };

    /// Writes the front of `from`, at least one byte, and answers how many bytes.
    /// After a fault the bytes written are as they were. A sink that takes nothing counts a fault.
    fn write(&mut self, from: &[u8]) -> Result<usize, Failed>
        requires { 0 < length from.now }
        ensures some { IfOk result (λ n. 1 ≤ n) }
        ensures within { IfOk result (λ n. n ≤ length from.now) }
        ensures given { IfOk result
            (λ n. Appends (written self.old) (take n from.now) (written self.new)) }
        ensures failed { OnErr result (written self.new ≡ written self.old) }
        ensures steady { OnOk result (faults self.new ≡ faults self.old) }
        ensures counted { OnErr result (faults self.old < faults self.new) };
}
