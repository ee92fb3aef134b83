//! What a leader sends.
use crate::body::ChainBody;
use graph_model::{Answer, CallId};

/// What a leader sends. No letter names a peer.
#[derive(Drop)]
pub enum Letter {
    /// To the client of that call: its answer.
    Tell(CallId, Answer),
    /// To that part, by how often its chain was taken up again.
    Cross(u32, u32, ChainBody),
    /// To the sender of the Remote or Fence that is answered.
    Back(ChainBody),
    /// To itself: it takes up the chains behind this one, or all.
    Again(Option<u64>),
}
