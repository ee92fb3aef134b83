//! What happens in a run.
use first_graph::{Answer, CallId, Op};
use lists::Listed;

/// What happens in a run.
#[derive(Drop)]
pub enum Event {
    /// The client makes a call.
    Invoke(CallId, Op),
    /// The packet of this number reaches its receiver, which takes one step.
    Deliver(u64),
    /// The client's call is over, with this answer.
    Reply(CallId, Answer),
}

/// Events, in the order in which they happened.
pub type Events = Listed<Event>;
