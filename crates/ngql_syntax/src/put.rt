//! What INSERT writes.
use crate::lit::{Lit, Values};
use crate::spanned::{Names, Spanned};
use lists::Listed;

/// The ends and the rank of an edge.
#[derive(Drop)]
pub struct Ends {
    /// The id of its source.
    pub src: Lit,
    /// The id of its destination.
    pub dst: Lit,
    /// Its rank, 0 where none is written.
    pub rank: i64,
}

/// Edges, in the order in which they stand.
pub type EndsList = Listed<Ends>;

/// A vertex with its values.
#[derive(Drop)]
pub struct VertexRow {
    /// Its id.
    pub id: Lit,
    /// Its values, in the order of the listed columns.
    pub values: Values,
}

/// Vertices with their values, in the order in which they stand.
pub type VertexRows = Listed<VertexRow>;

/// An edge with its values.
#[derive(Drop)]
pub struct EdgeRow {
    /// Its ends and its rank.
    pub ends: Ends,
    /// Its values, in the order of the listed columns.
    pub values: Values,
}

/// Edges with their values, in the order in which they stand.
pub type EdgeRows = Listed<EdgeRow>;

/// What INSERT VERTEX writes.
#[derive(Drop)]
pub struct PutVertices {
    /// Whether IF NOT EXISTS stands there.
    pub absent: bool,
    /// The tag.
    pub name: Spanned,
    /// The listed columns.
    pub columns: Names,
    /// The vertices.
    pub rows: VertexRows,
}

/// What INSERT EDGE writes.
#[derive(Drop)]
pub struct PutEdges {
    /// Whether IF NOT EXISTS stands there.
    pub absent: bool,
    /// The edge type.
    pub name: Spanned,
    /// The listed columns.
    pub columns: Names,
    /// The edges.
    pub rows: EdgeRows,
}
