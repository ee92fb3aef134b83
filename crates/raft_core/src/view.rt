//! What is seen of a peer.
use raft_log::{Placed, Role};

/// What is seen of a peer: whether it is up; its role, its term, its commit and its last index; the last configuration
/// of its log, and the last one that is committed, each with its index; and whether it is a leader whose no-op is
/// committed.
#[derive(Drop)]
pub struct PeerView {
    pub up: bool,
    pub role: Role,
    pub term: u64,
    pub commit: u64,
    pub last: u64,
    pub latest: Placed,
    pub decided: Placed,
    pub ready: bool,
}
