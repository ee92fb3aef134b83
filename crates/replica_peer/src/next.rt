//! What becomes of a peer by a step that is made ahead.
use chain_leader::TakenUp;
use part_keys::{ChainState, Policy};
use part_machine::PlacedEntries;
use raft_core::NextPeer;
use replica_model::Place;
use replica_state::{Rule, WaitingRead};
use std::collections::VecDeque;

/// What becomes of the reads that wait, before those that are confirmed are let go.
#[derive(Drop)]
pub(crate) enum Reads {
    /// None waits any more.
    Dropped,
    /// They stay.
    Stay,
    /// One more waits.
    OneMore(WaitingRead),
}

/// A step of the Raft peer.
#[derive(Drop)]
pub(crate) struct Steps {
    /// What stands behind it, none where it is refused.
    pub(crate) core: Option<NextPeer>,
    /// Whether the replica leads the same term on.
    pub(crate) on: bool,
    /// What becomes of the table of a leader that leads on.
    pub(crate) rule: Rule,
    pub(crate) policy: Policy,
    /// Whether it has applied its own no-op, behind what is applied.
    pub(crate) ready: bool,
    /// The sender of the entry that it appends, and the entry's index.
    pub(crate) sender: Option<(u64, Place)>,
    pub(crate) reads: Reads,
    /// The greatest round that is confirmed.
    pub(crate) confirmed: u64,
    /// The entries that are newly committed.
    pub(crate) placed: PlacedEntries,
    /// The row of the chain that begins with each of them.
    pub(crate) begins: VecDeque<Option<(u64, ChainState)>>,
    /// The chains whose letters leave.
    pub(crate) told: Vec<u64>,
}

/// What becomes of a peer.
#[derive(Drop)]
pub(crate) enum Next {
    /// It stays as it is.
    Stays,
    /// The hint of that chain is this peer.
    Points(u64, u32),
    /// The leader takes up chains; of these ones letters leave.
    Resumes(TakenUp, Vec<u64>),
    /// The Raft peer makes a step.
    Steps(Steps),
}
