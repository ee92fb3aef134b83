//! What a call does.
ghost use Rattle.std.specs.Prelude.{◌≡◌, IfOk, map};
ghost use Rattle.graph_model.specs.Ops.{edges_of, is_edge_op, is_careful};

use crate::edge_id::EdgeId;
use crate::edge_rows::EdgeRows;
use crate::edges::Edges;
use crate::query::Query;
use crate::val::Row;
use crate::vid::Vid;
use lists::{Listed, NoMemory};
use std::alloc::Global;

/// What a call does.
#[derive(Drop)]
pub enum Op {
    /// Puts edges with these properties. The flag is IF NOT EXISTS.
    PutEdges(EdgeRows, bool),
    /// Removes edges.
    DelEdges(Edges),
    /// Puts a tag of a vertex with these properties. The flag is IF NOT EXISTS.
    PutVertex(Vid, u32, Row, bool),
    /// Removes all tags of a vertex.
    DelVertex(Vid),
    /// Asks.
    Read(Query),
}

impl Op {
    /// Its edges, in its order. Refused for want of memory alone.
    #[tactic(auto, using(crate::proofs::OpLemmas::edges_put, crate::proofs::OpLemmas::edges_del))]
    pub fn edges(&self, alloc: Global) -> Result<Listed<EdgeId>, NoMemory>
        ensures { IfOk result (λ edges. edges ≡ edges_of self.now) }
    {
        match self {
            Op::PutEdges(rows, _) => {
                let edges = edges_in(alloc, rows.as_slice())?;
                Ok(edges)
            }
            Op::DelEdges(edges) => {
                let edges = Listed::from_slice(alloc, edges.as_slice())?;
                Ok(edges)
            }
            _ => Ok(Listed::new(alloc)),
        }
    }

    /// An equal op. Refused for want of memory alone.
    pub fn copy(&self, alloc: Global) -> Result<Self, NoMemory>
        ensures { IfOk result (λ op. op ≡ self.now) }
    {
        Ok(match self {
            Op::PutEdges(rows, absent) => Op::PutEdges(rows.copy(alloc)?, *absent),
            Op::DelEdges(edges) => Op::DelEdges(edges.copy(alloc)?),
            Op::PutVertex(v, t, row, absent) => Op::PutVertex(*v, *t, row.copy(alloc)?, *absent),
            Op::DelVertex(v) => Op::DelVertex(*v),
            Op::Read(query) => Op::Read(query.copy(alloc)?),
        })
    }

    /// Whether it puts or removes edges.
    pub fn is_edge_op(&self) -> bool
        ensures { result ≡ is_edge_op self.now }
    {
        match self {
            Op::PutEdges(_, _) => true,
            Op::DelEdges(_) => true,
            _ => false,
        }
    }

    /// Whether it puts edges with IF NOT EXISTS.
    pub fn is_careful(&self) -> bool
        ensures { result ≡ is_careful self.now }
    {
        match self {
            Op::PutEdges(_, absent) => *absent,
            _ => false,
        }
    }
}

fn edges_in(alloc: Global, rows: &[(EdgeId, Row)]) -> Result<Listed<EdgeId>, NoMemory>
    ensures { IfOk result (λ edges. edges ≡ map (λ x. x.0) rows.now) }
{
    let mut made = Listed::new(alloc);
    for row in rows {
        made.push(row.0)?;
    }
    Ok(made)
}
