//! What leaves a replica.
use lists::Listed;
use replica_model::Packet;

/// A packet that leaves, and the round of the read that it answers, 0 where it answers none.
#[derive(Drop)]
pub struct Leaving {
    pub packet: Packet,
    pub round: u64,
}

/// Packets that leave, in their order.
pub type Leaves = Listed<Leaving>;
