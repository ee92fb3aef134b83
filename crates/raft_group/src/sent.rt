//! Messages that were sent.
use raft_log::RaftMsg;

/// A message that was sent, by a peer and to a peer.
#[derive(Drop)]
pub struct Sent {
    pub from: u32,
    pub to: u32,
    pub message: RaftMsg,
}
