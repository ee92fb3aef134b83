//! A replica, beside its machine.
use crate::places::Places;
use crate::waiting::WaitingRead;
use crate::whose::Whose;
use chain_leader::Leader;
use raft_core::{PeerView, RaftCore};
use raft_log::RaftLog;
use replica_model::Place;
use std::alloc::Global;
use std::collections::BTreeMap;

/// What a replica of a part is beside the part's machine: its Raft peer, what it keeps as a leader, the senders of the Remotes and
/// Fences that it proposed as the leader that it is, the hints of its chains, and the reads that wait.
#[derive(Drop)]
pub struct ReplicaState {
    pub whose: Whose,
    pub core: RaftCore,
    pub leader: Leader,
    pub senders: Places<Place>,
    pub hints: Places<u32>,
    pub rows: Vec<WaitingRead>,
}

impl ReplicaState {
    ghost use Rattle.std.specs.Prelude.{◌≡◌, if◌then◌else◌};
    ghost use Rattle.raft_core.specs.Core.{is_leading};
    ghost use Rattle.raft_core.specs.Members.{matched_in};
    ghost use Rattle.raft_core.specs.Peer.{view_of};
    ghost use Rattle.replica_model.specs.Replica.{opened};
    ghost use Rattle.replica_state.specs.State.{home_in, home_of, replica_of};

    /// A replica that comes up with what is durable: a follower with commit 0. It takes no memory until it steps.
    pub fn open(
        alloc: Global,
        whose: Whose,
        me: u32,
        term: u64,
        vote: u32,
        log: RaftLog,
    ) -> ReplicaState
        ensures opened { replica_of result ≡ opened me (record { term = term; vote = vote; log = log.0 }) }
        ensures home { home_of result ≡ home_in whose }
    {
        ReplicaState {
            whose,
            core: RaftCore::open(alloc, me, term, vote, log),
            leader: Leader::idle(alloc),
            senders: BTreeMap::new(alloc),
            hints: BTreeMap::new(alloc),
            rows: Vec::new(alloc),
        }
    }

    /// What is seen of the Raft peer.
    pub fn view(&self) -> PeerView
        ensures { result ≡ view_of (replica_of self.now).core }
    {
        self.core.view()
    }

    /// The match index of a member at the leader, else 0.
    pub fn matched(&self, peer: u32) -> u64
        ensures { result ≡ (if is_leading (replica_of self.now).core.role then matched_in (replica_of self.now).core.rows peer else 0) }
    {
        self.core.matched(peer)
    }
}
