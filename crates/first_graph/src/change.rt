//! What a step changes of the contents.
use crate::edge_id::{EdgeId, Vid};
use crate::half::Half;
use crate::tag_key::TagKey;
use crate::val::Row;

/// What a step changes of the contents of a graph; kept for each step, it is the past of the graph.
#[derive(Drop)]
pub enum Change {
    /// All stays.
    Nothing,
    /// This tag of a vertex has this row now.
    Tag(TagKey, Row),
    /// The vertex has no tag any more.
    Gone(Vid),
    /// The out-half of the edge is this one now.
    Out(EdgeId, Half),
    /// The in-half of the edge is this one now.
    In(EdgeId, Half),
}
