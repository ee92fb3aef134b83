//! What a peer becomes by a step.
use crate::state::PeerState;
use raft_log::Entry;

/// What a peer becomes by a step: its state, how many entries of its log stay, and the entries that are put behind them.
#[derive(Drop)]
pub struct NextPeer {
    pub state: PeerState,
    pub keep: u64,
    pub entries: Vec<Entry>,
}
