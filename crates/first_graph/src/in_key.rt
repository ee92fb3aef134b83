//! An edge as its destination sees it.
ghost use Rattle.std.specs.Prelude.{◌≡◌};

use crate::edge_id::EdgeId;

/// An edge as its destination sees it, ordered as a view of in-edges is.
#[derive(Clone, Copy, PartialEq, Eq, PartialOrd, Ord)]
pub struct InKey {
    /// The destination vertex.
    pub dst: i64,
    /// The negated edge type.
    pub back: i64,
    /// The rank.
    pub rank: i64,
    /// The source vertex.
    pub src: i64,
    /// The edge type.
    pub etype: i32,
}

impl InKey {
    ghost use Rattle.first_graph.specs.Keys.{in_key, edge_of};

    /// The key of an edge's in-half.
    pub fn of(edge: EdgeId) -> InKey
        ensures { result ≡ in_key edge }
    {
        InKey {
            dst: edge.dst,
            back: -(edge.etype as i64),
            rank: edge.rank,
            src: edge.src,
            etype: edge.etype,
        }
    }

    /// The edge whose in-half has this key.
    pub fn edge(self) -> EdgeId
        ensures { result ≡ edge_of self }
    {
        EdgeId {
            src: self.src,
            etype: self.etype,
            rank: self.rank,
            dst: self.dst,
        }
    }
}
