//! Records as frames of the part file.
//!
//! A frame is the length of a body in four bytes, the body, and one closed gate byte, `00`. A body is a record:
//! term, vote and keep, the number of entries, and the entries, each with its term, the length of its item and
//! the item. [`encode`] gives a record's frame, [`decode`] reads a body.
//!
//! The contract: a record has one spelling; `encode` gives it, and `decode` gives the record of exactly that
//! spelling. No body's spelling begins another's. `decode` refuses exactly what is no body's spelling, at the
//! first field that doesn't fit, by its place in the body. Any bytes are a payload: whoever reads the log
//! knows what they mean.
//!
//! `entries` of `specs/Spelling` and `entries_at` of `specs/Reading` are those of packets too, with
//! [`put_entries`], [`read_entries`] and [`read_counted`]. A file's log is read entry by entry, with [`read_entry`].
//!
//! Below it are `raft_log` and `byte_fields`; above it are the file itself and its replica.
#![tactic(auto)]

mod kinds;
mod reading;
mod refused;
mod writing;

pub use reading::{decode, one_spelling, read_counted, read_entries, read_entry};
pub use refused::FrameRefused;
pub use writing::{encode, entries_room, put_entries};
