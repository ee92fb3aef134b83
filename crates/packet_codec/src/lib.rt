//! The bytes of packets.
//!
//! A packet is its kind, who sends it, to whom, and the fields of its kind; [`Kind`] has the fourteen kinds. Ids are tagged, so
//! that a number is told from a text. [`write_packet`] gives a packet's bytes, [`read_packet`] reads them.
//!
//! The contract: a packet has one spelling (`specs/Spelling`); `write_packet` gives it, and `read_packet` gives the packet of
//! exactly that spelling. No packet's spelling begins another's. What is no packet's spelling is refused at the first field
//! that doesn't fit (`specs/Reading`), by its place in the bytes. Any bytes are the payload of an Append's entry: whoever
//! reads the log knows what they mean. What has a spelling says `specs/Fits`.
//!
//! Read `specs/Kinds` first, then `specs/Spelling`, `specs/Fits` and `specs/Reading`. Below are the bytes of `graph_bytes`,
//! of the entries of `part_keys` and of the records of `wal_frames`, and the packets of `replica_model`; above is the journal
//! of the replicated world.
#![tactic(auto)]

mod answers;
mod chains;
mod ends;
mod kind;
mod messages;
mod packets;
mod reading;
mod refused;
mod requests;
mod room;
mod tags;

pub use kind::Kind;
pub use packets::{one_spelling, write_packet};
pub use reading::read_packet;
pub use refused::PacketRefused;
