//! What a step changes of the contents.
use crate::half::Halves;
use crate::tag_key::TagKey;
use crate::val::Row;
use crate::vid::Vid;

/// What a step changes of the contents of a graph; kept for each step, it is the past of the graph.
#[derive(Drop)]
pub enum Change {
    /// All stays.
    Nothing,
    /// This tag of a vertex has this row now.
    Tag(TagKey, Row),
    /// The vertex has no tag any more.
    Gone(Vid),
    /// The edges have these out-halves now.
    Out(Halves),
    /// The edges have these in-halves now.
    In(Halves),
}
