//! A count of faults that proofs alone read.
ghost use Rattle.std.specs.Prelude.{◌≡◌, ◌+◌, ℕ};
ghost use Rattle.std.specs.Borrow.{ftrue};

use std::marker::Model;

/// How many faults there were. It takes no bytes, so it has no last value, and no code can read it. What counts
/// faults by it calls `rise` exactly where it answers `Failed`, and what takes other counts over calls `add`; no other
/// fact ties the number to what happened.
#[derive(Drop)]
pub struct Faults {
    pub ghost count: { ℕ },
}

impl Model for Faults {
    ghost also_owns = { λ _. ftrue };
}

// It owns nothing, so it may go to another thread.
unsafe impl Send for Faults {}

impl Faults {
    /// No fault yet.
    pub fn new() -> Faults
        ensures { result.count ≡ 0 }
    {
        Faults {}
    }

    // One fault more.
    fn after(_before: &Faults) -> Faults
        ensures { result.count ≡ _before.now.count + 1 }
    {
        Faults {}
    }

    // Those of both counts.
    fn with(_before: &Faults, _other: &Faults) -> Faults
        ensures { result.count ≡ _before.now.count + _other.now.count }
    {
        Faults {}
    }

    /// Adds the faults of another count.
    pub fn add(&mut self, other: &Faults)
        ensures { self.new.count ≡ self.old.count + other.now.count }
    {
        *self = Faults::with(self, other);
    }

    /// Counts a fault.
    pub fn rise(&mut self)
        ensures { self.new.count ≡ self.old.count + 1 }
    {
        *self = Faults::after(self);
    }
}
