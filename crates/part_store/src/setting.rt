//! Which part of which space it is.
use part_keys::VidKind;

/// Which part of which space it is: the kind of the space's ids, its number of parts, and the part.
#[derive(Clone, Copy)]
pub struct Setting {
    /// The kind of the ids.
    pub ids: VidKind,
    /// The number of parts, 1 to 64.
    pub parts: u32,
    /// The part, 1 to that number.
    pub part: u32,
}
