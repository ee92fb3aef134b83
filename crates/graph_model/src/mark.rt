//! That a step changed something of a vertex.
ghost use Rattle.std.specs.Prelude.{◌≡◌};
ghost use Rattle.std.specs.Ordering.{eq_by_cmp};
ghost use Rattle.graph_model.specs.Keys.{vid_cmp};

use crate::vid::Vid;

/// That a step changed something of a vertex.
#[derive(Clone, Copy, PartialEq, Eq, PartialOrd, Ord)]
pub struct Mark {
    /// The vertex.
    pub vid: Vid,
    /// How many steps there were before.
    pub step: u64,
}

impl Mark {
    /// The mark of this step at this vertex.
    pub fn of(vid: &Vid, step: u64) -> Mark
        ensures { result ≡ record { vid = vid.now; step = step } }
    {
        Mark { vid: *vid, step }
    }

    /// Whether it is a mark of this vertex.
    pub fn is_of(&self, vid: &Vid) -> bool
        ensures { result ≡ eq_by_cmp vid_cmp vid.now self.now.vid }
    {
        vid.cmp(&self.vid).is_eq()
    }
}
