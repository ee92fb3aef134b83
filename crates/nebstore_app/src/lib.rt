//! The store of the first path, from bytes to bytes; the replicated program will take its place. A script is read, its
//! statements are calls in a world of two parts of one replica each, and the answers are written.
//!
//! A statement is one call of the client. Its request goes to a part, which decides and applies an entry and sends
//! what follows from it: an edge is a chain of four packets over the parts of its two ends, a walk is read in one
//! part. All that happens is noted as events and packets, and this journal is returned.
//!
//! The contract is that of `run_script`: the journal is a run of the world, whose graph steps are a run of the graph
//! machine with the same invokes and replies, so that its laws hold; the calls are those of the script's lines, in
//! order, each once; the bytes written are the print of the line answers; and each exit status is that of an outcome,
//! which says what was read, done and written (`specs/Outcome`, a row an outcome). The module `laws` has the laws of
//! every run of the world. `specs/World`, `specs/Steps`, `specs/Answering` and `specs/Report` have the other
//! definitions.
//!
//! Below are the lines (`first_script`), the parts (`first_part`), the graph machine (`first_graph`) and the source
//! and sink (`outside_io`); above is the program `nebstore`.
#![tactic(auto)]

mod due;
mod event;
mod journal;
pub mod laws;
mod mail;
mod outcome;
mod packet;
mod replica;
mod run;
mod script;
mod stopped;
mod world;

pub use event::{Event, Events};
pub use journal::Journal;
pub use outcome::Outcome;
pub use packet::{Body, Packet, Packets, Place};
pub use run::{Report, run_script};
