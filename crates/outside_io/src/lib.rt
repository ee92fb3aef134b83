//! Where a script is read from and where answers are written to.
//!
//! A [`Source`] gives bytes and a [`Sink`] takes them. Each may tell its bytes (those left, those written), as
//! memory does, or tell nothing, as the standard streams do. Each counts its faults, by a number that proofs alone
//! read: a call answers [`Failed`] only where it counted a fault, and a call that succeeds counts none. So code
//! over any source and sink can't make a fault up, nor pass one over.
//!
//! The contract: [`read_up_to`] gives the bytes of a source in order, none lost, to its end or to one byte more
//! than a limit; [`write_all`] writes a slice whole, or a front of it where the sink counted a fault.
//!
//! [`MemSource`] and [`MemSink`] move bytes in memory, in pieces of given sizes, and fail at given calls.
//! [`StdSource`] and [`StdSink`] stand over std's readers and writers: what these move is trusted, not proved.
//!
//! Below it is `lists`; above it are the program and the driver that runs a script.
#![tactic(auto)]

mod failed;
mod faults;
mod mem_sink;
mod mem_source;
mod plan;
mod reading;
mod sink;
mod source;
mod std_sink;
mod std_source;
mod writing;

pub use failed::Failed;
pub use faults::Faults;
pub use mem_sink::MemSink;
pub use mem_source::MemSource;
pub use reading::{Stop, read_up_to};
pub use sink::Sink;
pub use source::Source;
pub use std_sink::StdSink;
pub use std_source::StdSource;
pub use writing::write_all;
