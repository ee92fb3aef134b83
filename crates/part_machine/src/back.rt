//! What takes a plan back.
use crate::turn::Turn;
use kv_part::Batch;

/// What takes a plan back that was played.
#[derive(Drop)]
pub struct Back {
    /// The writes.
    pub batch: Batch,
    /// The turn of the chains.
    pub turn: Option<Turn>,
}
