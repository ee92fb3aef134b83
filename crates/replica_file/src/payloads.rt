//! Which payloads may stand in a log.
ghost use Rattle.std.specs.Prelude.{◌≡◌, List, ℕ, Bool, IfOk};

use lists::NoMemory;
use std::alloc::Global;

/// Which payloads may stand in a log. Whoever reads a log knows what its payloads mean.
pub trait Payloads {
    /// Whether these bytes may.
    ghost allowed: { Self → List ℕ → Bool };

    /// Whether these bytes may. Refused for want of memory alone.
    fn allows(&self, alloc: Global, payload: &[u8]) -> Result<bool, NoMemory>
        ensures { IfOk result (λ may. may ≡ allowed self.now payload.now) };
}
