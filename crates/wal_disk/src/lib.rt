//! The part file: records that are on the disk before they are acknowledged.
//!
//! A file is the magic, `NBW1` or `NBW2` by its version, and a gate byte; behind an open gate come a body with its length and the next gate. A
//! [`Wal`] appends a record by four calls of its disk: the frame is written behind the closed gate and synced, and
//! then the gate is opened by a write of its own and synced. No checksum is trusted: what stands behind a closed
//! gate doesn't count, and the gate stands closed on the disk until the frame is there.
//!
//! The contract: a crash at any moment since the start of an append leaves the records from before it, with the new
//! one or without; once it answered Ok every image has the new one. [`Wal::recover`] gives exactly the records whose
//! gates are open, up to the first that isn't, or the place where the file is outside the grammar, which no image of
//! a file is that was made and written by these calls alone. A fault is answered only where the disk counted one;
//! after it the file is recovered again.
//!
//! Below it is `disk_model`; above it are the crates that give the bodies a meaning.
#![tactic(auto)]

mod laws;
mod opening;
mod reading;
mod refused;
mod wal;
mod writing;

pub use laws::{never_bad, one_place, one_reading};
use lists::{Bytes, Listed};
pub use refused::{DiskFault, OpenWhy, WalRefused};
pub use wal::{Recovered, Wal};

/// The bodies of a file's records, in order.
pub type Bodies = Listed<Bytes>;
