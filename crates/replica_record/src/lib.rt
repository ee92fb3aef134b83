//! The record of a replica's step in the replica's file.
//!
//! A replica writes one record a step; which payloads may stand in its file are the entries of its part ([`PartPayloads`],
//! `specs/Own`), and what is durable of it are term, vote and log of its peer (`specs/Durable`). [`make_frame`] makes a
//! record's frame ahead, with room for it on the disk; [`make_durable`] then makes it durable, without memory.
//!
//! The contract, over any `Disk` as far as it tells its file: a crash at any moment of [`make_durable`] leaves what was durable
//! before, or that with the record (`any_moment`), and so does what is read behind it (`left`); once it answered Ok each image has
//! the latter (`acknowledged`); without a record the file isn't touched (`untouched`). Laws of each step
//! of a replica: each entry of its record may stand in its file, so no file that only steps wrote is found bad (`own_records`); and what is
//! durable behind it is what was, with its one record (`durable_behind`), which it has exactly where that changes (`records_tell_changes`).
//!
//! Below are `replica_model`, `replica_state` and `replica_file`; above is a replica on its disk.
#![tactic(auto)]

mod framing;
mod laws;
mod payloads;

pub use framing::{make_durable, make_frame};
pub use laws::{durable_behind, own_records, records_tell_changes};
pub use payloads::PartPayloads;
