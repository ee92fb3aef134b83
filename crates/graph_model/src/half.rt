//! One half of an edge.
ghost use Rattle.std.specs.Prelude.{◌≡◌, IfOk};
ghost use Rattle.graph_model.specs.Contents.{row_of};

use crate::edge_id::EdgeId;
use crate::val::Row;
use lists::{Copied, Listed, NoMemory};
use std::alloc::Global;

/// One half of an edge: an edge is kept once with its source and once with its destination.
#[derive(Drop)]
pub enum Half {
    /// There is no such edge.
    Absent,
    /// The edge is there, with these properties.
    Here(Row),
}

/// Some edges, each with a half.
pub type Halves = Listed<(EdgeId, Half)>;

impl Half {
    /// A copy of its row, if it is here. Refused for want of memory alone.
    pub fn row(&self, alloc: Global) -> Result<Option<Row>, NoMemory>
        ensures { IfOk result (λ row. row ≡ row_of self.now) }
    {
        Ok(match self {
            Half::Absent => None,
            Half::Here(row) => Some(row.copy(alloc)?),
        })
    }

    /// An equal half. Refused for want of memory alone.
    pub fn copy(&self, alloc: Global) -> Result<Self, NoMemory>
        ensures { IfOk result (λ half. half ≡ self.now) }
    {
        Ok(match self {
            Half::Absent => Half::Absent,
            Half::Here(row) => Half::Here(row.copy(alloc)?),
        })
    }
}

impl Copied for Half {
    fn copied(&self, alloc: Global) -> Result<Self, NoMemory> {
        self.copy(alloc)
    }
}
