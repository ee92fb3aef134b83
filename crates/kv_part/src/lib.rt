//! A store of keys and values, both bytes: what one part of the graph is kept in.
//!
//! A [`KeyStore`] means a finite map from bytes to bytes, its `meaning`. It is read at a key or under a prefix, and
//! changed by a [`Batch`] of writes, each of which puts a pair or removes one. Before its writes a batch is reserved:
//! that is the step for which memory may be wanting, and it changes no pair. A store that has a place for
//! each key of a batch takes its writes without memory, all at once or piece by piece.
//!
//! The contract: `get` answers what the map has at the key, `scan_prefix` its pairs under the prefix by rising key,
//! `reserve` leaves the map as it is, `write` makes it the map that the writes make, one after the other.
//!
//! [`MapStore`] is the store over a `BTreeMap`, in which a place is a key that may have no value.
//!
//! Below it is `lists`; above it are a part's machine and its snapshots.
#![tactic(auto)]

mod batch;
mod key_store;
mod map_store;

pub use batch::{Batch, Write};
pub use key_store::KeyStore;
use lists::{Bytes, Listed};
pub use map_store::MapStore;

/// Keys with their values.
pub type Pairs = Listed<(Bytes, Bytes)>;
