//! Names with their places.
use lists::{Copied, Listed, NoMemory, Text};
use std::alloc::Global;

/// A name and where it stands.
#[derive(Drop)]
pub struct Spanned {
    /// The name, without backquotes.
    pub text: Text,
    /// The place of its first byte in the line, from 1.
    pub at: u32,
}

/// Names, in the order in which they stand.
pub type Names = Listed<Spanned>;

impl Copied for Spanned {
    fn copied(&self, alloc: Global) -> Result<Self, NoMemory> {
        Ok(Spanned {
            text: self.text.copy(alloc)?,
            at: self.at,
        })
    }
}
