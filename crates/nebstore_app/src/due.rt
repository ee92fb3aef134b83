//! The answer that a call is due.
use first_graph::Answer;

/// The answer that ended the open call, and the number of the packet that brought it.
#[derive(Drop)]
pub(crate) struct Due {
    /// The number of the packet.
    pub packet: u64,
    /// The answer.
    pub answer: Answer,
}
