//! What stands behind a step.
use crate::effects::RaftEffects;
use crate::state::PeerState;
use raft_log::Entry;

/// What stands behind a step, made ahead of it: the state, how many entries of the log stay, the entries that are put
/// behind them, and what the step gives.
#[derive(Drop)]
pub struct Outcome {
    pub state: PeerState,
    pub keep: u64,
    pub entries: Vec<Entry>,
    pub effects: RaftEffects,
}
