//! One half of an edge.
ghost use Rattle.std.specs.Prelude.{◌≡◌, IfOk};

use crate::val::Row;
use lists::{Copied, NoMemory};
use std::alloc::Global;

/// One half of an edge: an edge is kept once with its source and once with its destination.
#[derive(Drop)]
pub enum Half {
    /// There is no such edge.
    Absent,
    /// The edge is there, with these properties.
    Here(Row),
}

impl Half {
    /// An equal half. Refused for want of memory alone.
    pub fn copy(&self, alloc: Global) -> Result<Self, NoMemory>
        ensures { IfOk result (λ half. half ≡ self.now) }
    {
        Ok(match self {
            Half::Absent => Half::Absent,
            Half::Here(row) => Half::Here(row.copy(alloc)?),
        })
    }
}

impl Copied for Half {
    fn copied(&self, alloc: Global) -> Result<Self, NoMemory> {
        self.copy(alloc)
    }
}
