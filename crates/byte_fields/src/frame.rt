//! Frames and their gates.
use lists::Bytes;

/// A frame: the length of a body in 4 bytes, the body, and a closed gate.
pub type Frame = Bytes;

/// A gate behind which a record counts. Any other gate is closed.
pub const OPEN_GATE: u8 = 0xa5;

/// The gate that a frame ends with.
pub const CLOSED_GATE: u8 = 0;
