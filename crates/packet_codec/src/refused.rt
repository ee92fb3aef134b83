//! Why a packet could not be read.

/// Why a packet could not be read.
#[derive(Drop)]
pub enum PacketRefused {
    /// The first field that doesn't fit begins at this place, counted from 0.
    BadPacket(u64),
    /// There was no memory left.
    NoMemory,
}
