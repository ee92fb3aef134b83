//! The first bytes of items, and how many peers there are at most.

/// An item that is a no-op.
pub(crate) const NO_OP_ITEM: u8 = 0;

/// An item that is members.
pub(crate) const MEMBERS_ITEM: u8 = 1;

/// An item that is a payload.
pub(crate) const PAYLOAD_ITEM: u8 = 2;

/// The most peers of a configuration, voters and learners together.
pub(crate) const MOST_PEERS: usize = 8;
