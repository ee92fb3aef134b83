//! What a crash leaves of a disk in memory.

use lists::{Bytes, Listed};

/// For each write or cut that a crash tears the bytes that it leaves of it, the newest call first.
pub type Tears = Listed<Bytes>;

/// What a crash leaves of a disk.
#[derive(Drop)]
pub enum Pick {
    /// What was synced.
    Synced,
    /// What a read gave.
    Read,
    /// What was synced, and on it each write and cut since then, done or failed, with the bytes picked for it: a write
    /// leaves them in its range, a cut behind its length. Those that are too many are passed over, and a call without
    /// a pick wasn't done.
    Torn(Tears),
}
