//! What an entry is answered.
use crate::clients::Outcome;
use first_graph::{CallId, View};

/// What an entry is answered by the part that applies it.
#[derive(Drop)]
pub enum Applied {
    /// The call's number is below the client's last one.
    Old,
    /// The call's number is the client's last one, and this is its outcome so far.
    Again(Outcome),
    /// This other call has a chain under way on the edge.
    Conflict(CallId),
    /// The edge is there, and the call leaves it.
    Skipped,
    /// The chain has begun; this is its number.
    Begun(u64),
    /// The chain of this call is settled.
    Settled(CallId),
    /// The in-half has the value, of this chain or of a later one.
    Done,
    /// What the query of this call finds.
    Shown(CallId, View),
    /// The entry changes nothing.
    Nothing,
}
