//! The steps of the graph machine.
use crate::answer::Answer;
use crate::call_id::CallId;
use crate::edge_id::EdgeId;
use crate::op::Op;

/// A step of the graph machine.
#[derive(Drop)]
pub enum GStep {
    /// A client makes a call.
    Invoke(CallId, Op),
    /// The chain of a call begins on its edge.
    Begin(CallId),
    /// The edge is there, and the call leaves it.
    Skip(CallId),
    /// Another call's chain is on the edge.
    Refuse(CallId),
    /// The chain on the edge writes the in-half.
    InHalf(EdgeId),
    /// The chain on the edge writes the out-half.
    OutHalf(EdgeId),
    /// The chain on the edge ends, with both halves written.
    Settle(EdgeId),
    /// The chain on the edge ends, with neither half written.
    Cancel(EdgeId),
    /// A call writes or removes a vertex.
    Vertex(CallId),
    /// A call reads the graph as it was at this moment.
    Read(CallId, u64),
    /// A call is answered.
    Reply(CallId, Answer),
}
