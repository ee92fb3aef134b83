//! The first bytes of what has kinds.

/// The greatest client, and the greatest part.
pub const MOST_SMALL: u32 = 64;

/// An id that is a number.
pub(crate) const NUMBER_ID: u8 = 0;

/// An id that is a text.
pub(crate) const TEXT_ID: u8 = 1;

/// The value null.
pub(crate) const NULL_VALUE: u8 = 0;

/// A value that is a number.
pub(crate) const INT_VALUE: u8 = 1;

/// A value that is a flag.
pub(crate) const FLAG_VALUE: u8 = 2;

/// A value that is a text.
pub(crate) const WORDS_VALUE: u8 = 3;

/// A half of an edge that isn't there.
pub(crate) const ABSENT_HALF: u8 = 0;

/// A half of an edge that is there.
pub(crate) const HERE_HALF: u8 = 1;

/// A query for a tag of a vertex.
pub(crate) const TAG_QUERY: u8 = 1;

/// A query for an edge.
pub(crate) const EDGE_QUERY: u8 = 2;

/// A query for the edges from a vertex.
pub(crate) const OUT_QUERY: u8 = 3;

/// A query for the edges to a vertex.
pub(crate) const IN_QUERY: u8 = 4;

/// A query for the edges from and to a vertex.
pub(crate) const BOTH_QUERY: u8 = 5;

/// A tag's row in an answer.
pub(crate) const TAG_FOUND: u8 = 0;

/// An edge's row in an answer.
pub(crate) const EDGE_FOUND: u8 = 1;
