//! What may happen.
use graph_model::{Answer, CallId, Op};
use meta_parts::MetaBody;
use raft_log::Config;
use replica_model::Tick;

/// What a replica was about when it stopped: a tick, or the packet of that number.
#[derive(Drop)]
pub enum Cause {
    Tick(Tick),
    Sent(u64),
}

/// What may happen next. A replica is named by its part and peer, a packet by its number among all that were ever sent,
/// from 0.
#[derive(Drop)]
pub enum Event {
    /// A client makes its next call.
    Invoke(CallId, Op),
    /// The packet is delivered, the first time or again.
    Deliver(u64),
    /// The packet is lost.
    Lose(u64),
    /// The replica is told something.
    Tick(u32, u32, Tick),
    /// The replica stops between two steps.
    Crash(u32, u32),
    /// The replica stops inside a step.
    StepCrash(u32, u32, Cause),
    /// The replica comes up again; the flag tells whether the record of the step in which it stopped is there.
    Restart(u32, u32, bool),
    /// A replica of the part is created on this node, by this peer's id, with the part's first configuration or with nothing.
    Place(u32, u32, u32, Option<Config>),
    /// The replica goes, and never comes back.
    Wipe(u32, u32),
    /// The table of parts, nodes and tasks changes by this body.
    Meta(MetaBody),
    /// The client sends its open call again.
    Round(u32),
    /// The call ends with this answer.
    Reply(CallId, Answer),
}
