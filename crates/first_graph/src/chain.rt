//! A chain under way on an edge.
use crate::call_id::CallId;
use crate::half::Half;

/// A chain under way on an edge: it brings both halves to one new value.
#[derive(Drop)]
pub struct Chain {
    /// The call whose chain it is.
    pub id: CallId,
    /// The new value of both halves.
    pub half: Half,
    /// Whether the in-half has it.
    pub in_done: bool,
    /// Whether the out-half has it.
    pub out_done: bool,
}
