//! Statements.

/// What a line of a script asks.
#[derive(Clone, Copy)]
pub enum Statement {
    /// To put an edge, in the place of the one that is there.
    Insert {
        /// The source vertex.
        src: i64,
        /// The destination vertex.
        dst: i64,
        /// The edge's one property.
        degree: i64,
    },
    /// Which edges leave the vertex.
    Out(i64),
    /// Which edges enter the vertex.
    In(i64),
}
