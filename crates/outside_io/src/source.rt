//! Where bytes are read from.
ghost use Rattle.std.specs.Prelude.{◌≡◌, ◌<◌, ◌≤◌, ℕ, List, length, take, IfOk, OnOk, OnErr};
ghost use Rattle.std.specs.declared.option.Option.{Option};
ghost use Rattle.outside_io.specs.Bytes.{TakesFront, IsEnded};

use crate::failed::Failed;

/// Gives bytes in order.
pub trait Source {
    /// How many faults there were.
    ghost faults: { Self → ℕ };

    /// The bytes left, where the source tells them.
    ghost left: { Self → Option (List ℕ) };

    /// Reads the next bytes into the front of `into`, and answers how many; 0 only where none is left.
    /// After a fault the bytes left are as they were.
    fn read(&mut self, into: &mut [u8]) -> Result<usize, Failed>
        requires { 0 < length into.old }
        ensures within { IfOk result (λ n. n ≤ length into.new) }
        ensures given { IfOk result
            (λ n. TakesFront (left self.old) (take n into.new) (left self.new)) }
        ensures ended { IfOk result (λ n. n ≡ 0 → IsEnded (left self.new)) }
        ensures failed { OnErr result (left self.new ≡ left self.old) }
        ensures steady { OnOk result (faults self.new ≡ faults self.old) }
        ensures counted { OnErr result (faults self.old < faults self.new) };
}
