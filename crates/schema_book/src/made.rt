//! What CREATE gives.

/// What CREATE gives.
#[derive(Clone, Copy, Debug)]
pub enum Made {
    /// The new space, tag or edge type has this number.
    New(u32),
    /// It was there already, and IF NOT EXISTS stands there.
    Already,
}
