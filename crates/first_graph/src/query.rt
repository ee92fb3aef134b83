//! What may be asked of a graph.
ghost use Rattle.std.specs.Prelude.{◌≡◌, IfOk};

use crate::edge_id::{EdgeId, Vid};
use crate::types::Types;
use lists::{Copied, NoMemory};
use std::alloc::Global;

/// What may be asked of a graph.
#[derive(Drop)]
pub enum Query {
    /// The row of a tag of a vertex.
    Tag(Vid, u32),
    /// The row of an edge, by its out-half.
    Edge(EdgeId),
    /// The edges of these types that leave the vertex, by their out-halves.
    Out(Vid, Types),
    /// The edges of these types that enter the vertex, by their in-halves.
    In(Vid, Types),
    /// The edges that enter the vertex, then those that leave it.
    Both(Vid, Types),
}

impl Query {
    /// An equal query. Refused for want of memory alone.
    pub fn copy(&self, alloc: Global) -> Result<Self, NoMemory>
        ensures { IfOk result (λ query. query ≡ self.now) }
    {
        Ok(match self {
            Query::Tag(vid, tag) => Query::Tag(*vid, *tag),
            Query::Edge(edge) => Query::Edge(*edge),
            Query::Out(vid, types) => Query::Out(*vid, types.copy(alloc)?),
            Query::In(vid, types) => Query::In(*vid, types.copy(alloc)?),
            Query::Both(vid, types) => Query::Both(*vid, types.copy(alloc)?),
        })
    }
}

impl Copied for Query {
    fn copied(&self, alloc: Global) -> Result<Self, NoMemory> {
        self.copy(alloc)
    }
}
