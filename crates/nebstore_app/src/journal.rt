//! What was done in a run.
use crate::event::Events;
use crate::packet::Packets;

/// What was done in a run.
#[derive(Drop)]
pub struct Journal {
    /// The events, in order.
    pub events: Events,
    /// The packets, in the order in which they were sent.
    pub packets: Packets,
}
