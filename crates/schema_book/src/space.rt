//! The space.
use lists::Text;
use part_keys::VidKind;

/// The space.
#[derive(Drop)]
pub struct Space {
    /// Its name.
    pub name: Text,
    /// Its number of parts.
    pub parts: u32,
    /// Its number of replicas a part.
    pub factor: u32,
    /// The kind of its ids.
    pub ids: VidKind,
}
