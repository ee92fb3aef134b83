//! What YIELD and WHERE look at.
use crate::spanned::Spanned;
use lists::Listed;

/// What YIELD and WHERE look at.
#[derive(Drop)]
pub enum RawExpr {
    /// The source of the edge.
    Src,
    /// The destination of the edge.
    Dst,
    /// The rank of the edge.
    Rank,
    /// The name of the edge's type.
    Label,
    /// The id of the vertex.
    Id,
    /// A column of the edge or of the vertex, whatever its type or tag.
    Property(Spanned),
    /// A column of a type or of a tag; the first name is that of the type or tag.
    Named(Spanned, Spanned),
}

/// What is shown, in its order.
pub type RawExprs = Listed<RawExpr>;
