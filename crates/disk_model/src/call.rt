//! The calls of a disk that are kept.

/// A call that may change what a read gives, or what a crash leaves.
#[derive(Clone, Copy)]
pub enum Call {
    /// A write at this place, of so many bytes.
    Write(u64, usize),
    /// A cut to this length.
    Cut(u64),
    /// A sync.
    Sync,
}

/// A call, and whether it was done or failed.
#[derive(Clone, Copy)]
pub struct Made {
    /// The call.
    pub call: Call,
    /// Whether it was done.
    pub ok: bool,
}
