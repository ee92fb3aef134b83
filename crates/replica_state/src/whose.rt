//! Whose replica it is.
use part_keys::VidKind;

/// Whose replica it is: its part, how many parts there are, and of which kind the space's ids are.
#[derive(Clone, Copy)]
pub struct Whose {
    pub part: u32,
    pub parts: u32,
    pub ids: VidKind,
}
