//! The fields of every format of the store: numbers, flags, runs of bytes and rising lists of ids.
//!
//! A format's grammar is stated once, in `specs/`: what a value is spelled as (`Fields`), and what reading the
//! front of some bytes gives (`Reading`), a value and the bytes after it, or the first field that doesn't fit.
//! A field that is cut short doesn't fit, at its first byte. A [`Misfit`] counts the bytes from that field to
//! the end, so its place is the number of bytes before it. Fields are joined by `>>=`, repeated by `many_at`, and
//! bounded by a length before them by `inside`.
//!
//! The contract: a reader gives exactly what `Reading` gives; [`Writer`] puts exactly a field's spelling behind
//! what it has. The laws in `proofs/`, one pair a field: what is read is spelled so, and what is spelled so is
//! read again, whatever follows it.
//!
//! Below it are `lists` and `byteorder`; above it are the records of the part file, keys, entries and packets.
#![tactic(auto)]

mod frame;
mod misfit;
mod reading;
mod refused;
mod writer;

pub use frame::{CLOSED_GATE, Frame, OPEN_GATE};
pub use misfit::Misfit;
pub use reading::{
    read_byte, read_count, read_flag, read_i32, read_i64, read_id, read_ids, read_run, read_u16,
    read_u32, read_u64,
};
pub use refused::ReadRefused;
pub use writer::Writer;
