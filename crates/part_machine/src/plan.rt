//! What an entry does, made ahead.
use crate::turn::Turn;
use kv_part::Batch;
use part_rules::Applied;

/// What an entry does: the writes of the store, the turn of the chains that stand, and its answer.
#[derive(Drop)]
pub struct Plan {
    /// The writes.
    pub batch: Batch,
    /// The turn of the chains, if there is one.
    pub turn: Option<Turn>,
    /// The answer.
    pub answer: Applied,
}
