//! What may happen.
use graph_model::{Answer, CallId, Op};
use part_keys::Policy;
use raft_log::Config;

/// What may happen next in a world of parts. A leader is named by its part and term, a packet by its number among all
/// that were ever sent, from 0.
#[derive(Drop)]
pub enum ChainEvent {
    /// A client makes a call.
    Invoke(CallId, Op),
    /// The leader proposes a configuration; at term 0 it is the first one.
    Members(u32, u64, Config),
    /// The part gets a leader of this term and policy, that has applied so many entries.
    Lead(u32, u64, Policy, u64),
    /// The leader takes a packet.
    Take(u32, u64, u64),
    /// The proposal of that term with this number, from 0, is decided.
    Decide(u32, u64, u64),
    /// The leader applies the next entry.
    Apply(u32, u64),
    /// The leader is told that the client waits no longer.
    GiveUp(u32, u64, CallId),
    /// The leader is told to take up its chains again.
    Pulse(u32, u64),
    /// The leader answers a read.
    See(u32, u64, CallId),
    /// The call ends with this answer: the one that the packet brings, or Unknown, which needs none.
    Reply(CallId, Answer, u64),
}
