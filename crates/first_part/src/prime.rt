//! A chain under way in its source's part.
use first_graph::{CallId, EdgeId, Half};

/// A chain under way, as its source's part keeps it.
#[derive(Drop)]
pub struct PrimeRec {
    /// The edge.
    pub edge: EdgeId,
    /// The chain's number: the index of its Prime in the part's log.
    pub v: u64,
    /// The call.
    pub id: CallId,
    /// The new value of both halves.
    pub fresh_half: Half,
    /// Whether the out-half has it already.
    pub double: bool,
}
