//! Which calls of a disk in memory fail.
ghost use Rattle.std.specs.Prelude.{◌≡◌};

use lists::Listed;

/// Which calls fail, by the number of the call from 0.
#[derive(Drop)]
pub struct Plan {
    pub(crate) fuse: Option<u64>,
    pub(crate) failing: Listed<u64>,
    pub(crate) number: u64,
}

impl Plan {
    ghost use Rattle.disk_model.specs.Plan.{passes, called, plan_with, without_fuse};

    /// The plan before the first call: a fuse lets so many calls pass and none behind them, and the calls whose
    /// numbers are in `failing` fail.
    pub fn new(fuse: Option<u64>, failing: Listed<u64>) -> Plan
        ensures { result ≡ plan_with fuse failing }
    {
        Plan {
            fuse,
            failing,
            number: 0,
        }
    }

    /// The plan of a disk that was opened again.
    pub(crate) fn reopened(self) -> Plan
        ensures { result ≡ without_fuse self }
    {
        Plan { fuse: None, ..self }
    }

    /// Whether the next call passes.
    pub(crate) fn passes(&self) -> bool
        ensures { result ≡ passes self.now }
    {
        if let Some(fuse) = self.fuse
            && self.number >= fuse
        {
            return false;
        }
        !self.failing.as_slice().contains(&self.number)
    }

    /// Counts a call.
    pub(crate) fn count(&mut self)
        ensures { self.new ≡ called self.old }
    {
        self.number = self.number.saturating_add(1);
    }

    /// Whether the next call passes. It is one call more.
    pub(crate) fn next(&mut self) -> bool
        ensures passes { result ≡ passes self.old }
        ensures called { self.new ≡ called self.old }
    {
        let passes = self.passes();
        self.count();
        passes
    }
}
