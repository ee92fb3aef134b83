//! What an input asks of a replica.
use chain_leader::About;
use graph_model::{CallId, Query};
use raft_core::RaftInput;
use replica_model::Place;

/// What becomes of a leader's table by the rule that proposes: nothing, the entry that ends that chain is asked for, or that
/// chain is doubled.
#[derive(Clone, Copy)]
pub enum Rule {
    Stays,
    Asks(u64),
    Doubles(u64),
}

/// What an input asks of a replica.
#[derive(Drop)]
pub enum Asked {
    /// Nothing.
    Nothing,
    /// Its sender is told who may lead.
    Refuses(Place, About),
    /// The hint of a chain is this peer.
    Points(u64, u32),
    /// The leader's rules are asked, and have nothing to do.
    Quiet,
    /// The leader takes up the chains behind this one, or all.
    Resumes(Option<u64>),
    /// A step of the Raft peer, what becomes of the leader's table, and the sender of what is proposed, where one is kept.
    Raft(RaftInput, Rule, Option<Place>),
    /// A step that begins a round, for a read.
    Reads(CallId, Query),
}
