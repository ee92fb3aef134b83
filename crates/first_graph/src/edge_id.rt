//! Vertices and edges.
ghost use Rattle.std.specs.Prelude.{◌≡◌, IsTrue, ◌↔◌};

/// The id of a vertex.
pub type Vid = i64;

/// The name of an edge, as NebulaGraph has it: source, type, rank and destination. The type is positive.
#[derive(Clone, Copy, Debug, PartialEq, Eq, PartialOrd, Ord)]
pub struct EdgeId {
    /// The source vertex.
    pub src: i64,
    /// The edge type, positive.
    pub etype: i32,
    /// The rank, which tells apart edges of one type between the same two vertices.
    pub rank: i64,
    /// The destination vertex.
    pub dst: i64,
}

impl EdgeId {
    /// Whether the two are the same edge.
    pub fn is_same(self, other: EdgeId) -> bool
        ensures { IsTrue result ↔ (self ≡ other) }
    {
        if self.src != other.src {
            return false;
        }
        if self.etype != other.etype {
            return false;
        }
        if self.rank != other.rank {
            return false;
        }
        self.dst == other.dst
    }
}
