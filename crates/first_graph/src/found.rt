//! What a query finds.
ghost use Rattle.std.specs.Prelude.{◌≡◌, ◌↔◌, IfOk, IsTrue};

use crate::edge_id::EdgeId;
use crate::val::Row;
use lists::{Copied, Listed, NoMemory, Same};
use std::alloc::Global;

/// One row that a query found.
#[derive(Debug, Drop)]
pub struct Found {
    /// The edge, where the row is an edge's.
    pub edge: Option<EdgeId>,
    /// Whether it was found by its in-half.
    pub inward: bool,
    /// The properties.
    pub row: Row,
}

/// What a query finds: edges by signed type (negated for an in-edge), then rank, then the other end.
pub type View = Listed<Found>;

impl Found {
    /// An equal one. Refused for want of memory alone.
    pub fn copy(&self, alloc: Global) -> Result<Self, NoMemory>
        ensures { IfOk result (λ found. found ≡ self.now) }
    {
        Ok(Found {
            edge: self.edge,
            inward: self.inward,
            row: self.row.copy(alloc)?,
        })
    }
}

impl Copied for Found {
    fn copied(&self, alloc: Global) -> Result<Self, NoMemory> {
        self.copy(alloc)
    }
}

impl Same for Found {
    fn is_same(&self, other: &Self) -> bool {
        if !is_same_edge(self.edge, other.edge) {
            return false;
        }
        if self.inward != other.inward {
            return false;
        }
        self.row.is_same(&other.row)
    }
}

fn is_same_edge(edge: Option<EdgeId>, other: Option<EdgeId>) -> bool
    ensures { IsTrue result ↔ (edge ≡ other) }
{
    match (edge, other) {
        (None, None) => true,
        (Some(edge), Some(other)) => edge.is_same(other),
        _ => false,
    }
}
