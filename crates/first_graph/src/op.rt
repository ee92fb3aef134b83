//! What a call does.
ghost use Rattle.std.specs.Prelude.{◌≡◌, IfOk};

use crate::edge_id::{EdgeId, Vid};
use crate::query::Query;
use crate::val::Row;
use lists::{Copied, NoMemory};
use std::alloc::Global;

/// What a call does.
#[derive(Drop)]
pub enum Op {
    /// Puts an edge with these properties. The flag is IF NOT EXISTS.
    PutEdge(EdgeId, Row, bool),
    /// Removes an edge.
    DelEdge(EdgeId),
    /// Puts a tag of a vertex with these properties. The flag is IF NOT EXISTS.
    PutVertex(Vid, u32, Row, bool),
    /// Removes all tags of a vertex.
    DelVertex(Vid),
    /// Asks.
    Read(Query),
}

impl Op {
    /// An equal one. Refused for want of memory alone.
    pub fn copy(&self, alloc: Global) -> Result<Self, NoMemory>
        ensures { IfOk result (λ op. op ≡ self.now) }
    {
        Ok(match self {
            Op::PutEdge(edge, row, absent) => Op::PutEdge(*edge, row.copy(alloc)?, *absent),
            Op::DelEdge(edge) => Op::DelEdge(*edge),
            Op::PutVertex(vid, tag, row, absent) => {
                Op::PutVertex(*vid, *tag, row.copy(alloc)?, *absent)
            }
            Op::DelVertex(vid) => Op::DelVertex(*vid),
            Op::Read(query) => Op::Read(query.copy(alloc)?),
        })
    }
}

impl Copied for Op {
    fn copied(&self, alloc: Global) -> Result<Self, NoMemory> {
        self.copy(alloc)
    }
}
