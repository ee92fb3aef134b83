//! What the calls of a source or a sink in memory do.
ghost use Rattle.std.specs.Prelude.{◌≡◌, ◌<◌, ◌≤◌, IfSome};

use lists::Listed;

/// How much each call moves and which calls fail, by the number of the call from 0.
#[derive(Drop)]
pub struct Plan {
    pieces: Listed<usize>,
    failing: Listed<u64>,
    calls: u64,
}

impl Plan {
    ghost use Rattle.outside_io.specs.Plan.{moves, called};

    /// The plan before the first call.
    pub(crate) fn new(pieces: Listed<usize>, failing: Listed<u64>) -> Plan
        ensures { result ≡ record { pieces = pieces; failing = failing; calls = 0 } }
    {
        Plan {
            pieces,
            failing,
            calls: 0,
        }
    }

    /// How many of so many bytes the next call moves, at least one; `None` where that call fails.
    pub(crate) fn next(&mut self, asked: usize) -> Option<usize>
        requires { 0 < asked }
        ensures some { IfSome result (λ n. (1 ≤ n) × (n ≤ asked)) }
        ensures value { result ≡ moves self.old asked }
        ensures called { self.new ≡ called self.old }
    {
        let call = self.calls;
        self.calls = call.saturating_add(1);
        if self.failing.as_slice().contains(&call) {
            return None;
        }
        let piece = self.pieces.as_slice().get(call as usize).copied();
        Some(asked.min(piece.unwrap_or(asked).max(1)))
    }
}
