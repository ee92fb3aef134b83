//! A tag of a vertex.
ghost use Rattle.std.specs.Prelude.{◌≡◌};

use crate::edge_id::Vid;

/// A tag of a vertex.
#[derive(Clone, Copy, PartialEq, Eq, PartialOrd, Ord)]
pub struct TagKey {
    /// The vertex.
    pub vid: i64,
    /// The tag's number.
    pub tag: u32,
}

impl TagKey {
    /// The key of this tag of this vertex.
    pub fn of(vid: &Vid, tag: &u32) -> TagKey
        ensures { result ≡ record { vid = vid.now; tag = tag.now } }
    {
        TagKey {
            vid: *vid,
            tag: *tag,
        }
    }
}
