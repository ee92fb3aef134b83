//! Statements.
use crate::define::Define;
use crate::expr::RawExprs;
use crate::go::GoWords;
use crate::lit::Lits;
use crate::put::{EndsList, PutEdges, PutVertices};
use crate::spanned::Spanned;

/// A statement.
#[derive(Drop)]
pub enum Statement {
    /// CREATE
    Make(Define),
    /// USE
    Select(Spanned),
    /// INSERT VERTEX
    PutVertex(PutVertices),
    /// INSERT EDGE
    PutEdge(PutEdges),
    /// DELETE VERTEX
    DelVertex(Lits),
    /// DELETE EDGE, of a type
    DelEdge(Spanned, EndsList),
    /// FETCH PROP ON a tag: of these ids
    FetchVertex(Spanned, Lits, RawExprs),
    /// FETCH PROP ON an edge type: of these edges
    FetchEdge(Spanned, EndsList, RawExprs),
    /// GO
    Go(GoWords),
}

/// A statement with what stands before it.
#[derive(Drop)]
pub struct Line {
    /// The client, 1 to 64; 1 where none is written.
    pub client: u32,
    /// Whether `~` marks it to be collected.
    pub collected: bool,
    /// The statement.
    pub statement: Statement,
}
