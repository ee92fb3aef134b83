//! The first bytes of entries, and of a vertex's changes.

/// A call begins a chain.
pub(crate) const PRIME_ENTRY: u8 = 1;

/// A chain's out-halves are written, and it ends.
pub(crate) const LOCAL_ENTRY: u8 = 2;

/// A chain's out-halves are written first.
pub(crate) const DOUBLE_ENTRY: u8 = 3;

/// A chain whose out-halves were written first ends.
pub(crate) const CLOSE_ENTRY: u8 = 4;

/// A chain that wrote nothing ends.
pub(crate) const ABORT_ENTRY: u8 = 5;

/// A chain writes its in-halves.
pub(crate) const REMOTE_ENTRY: u8 = 6;

/// A chain's Remotes of lower terms count no more.
pub(crate) const FENCE_ENTRY: u8 = 7;

/// A call changes a vertex.
pub(crate) const VERTEX_ENTRY: u8 = 8;

/// A call reads.
pub(crate) const READ_ENTRY: u8 = 9;

/// A row is put at a vertex.
pub(crate) const PUT_CHANGE: u8 = 1;

/// A vertex is deleted.
pub(crate) const DELETE_CHANGE: u8 = 2;
