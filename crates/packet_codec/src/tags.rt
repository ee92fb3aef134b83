//! The first bytes of what in a packet has kinds.

/// A client.
pub(crate) const CLIENT_END: u8 = 0;

/// A peer of a part.
pub(crate) const PEER_END: u8 = 1;

/// Whichever peer of a part stands at the place of a try.
pub(crate) const PART_END: u8 = 2;

/// The call is done.
pub(crate) const FINE_ANSWER: u8 = 1;

/// The rows were there.
pub(crate) const SKIPPED_ANSWER: u8 = 2;

/// It is certain, and the in-halves follow.
pub(crate) const PENDING_ANSWER: u8 = 3;

/// It was not done.
pub(crate) const CANCELLED_ANSWER: u8 = 4;

/// Another call has a chain under way.
pub(crate) const CONFLICT_ANSWER: u8 = 5;

/// What a query found.
pub(crate) const SHOWN_ANSWER: u8 = 6;

/// The kind of a Prime that is asked for.
pub(crate) const ASKED_PRIME: u8 = 1;

/// The kind of a Vertex that is asked for.
pub(crate) const ASKED_VERTEX: u8 = 8;

/// The kind of a Read that is asked for.
pub(crate) const ASKED_READ: u8 = 9;

/// A NotLeader is about a call.
pub(crate) const ABOUT_CALL: u8 = 0;

/// A NotLeader is about a chain.
pub(crate) const ABOUT_CHAIN: u8 = 1;

/// A Resume goes on from the start.
pub(crate) const FROM_START: u8 = 0;

/// A Resume goes on behind a chain.
pub(crate) const BEHIND_CHAIN: u8 = 1;
