//! Why a body could not be read.

/// Why a body could not be read.
#[derive(Drop)]
pub enum FrameRefused {
    /// The first field that doesn't fit begins at this place in the body, counted from 0.
    BadFile(u64),
    /// There was no memory left.
    NoMemory,
}
