//! What stood before an option of CREATE SPACE.

/// What stood before an option of CREATE SPACE.
#[derive(Clone, Copy)]
pub struct Seen {
    /// SPACE
    pub space: bool,
    /// The number of parts.
    pub parts: bool,
    /// The number of replicas.
    pub factor: bool,
    /// The kind of ids.
    pub ids: bool,
}
