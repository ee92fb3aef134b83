//! A step that is made ahead.
use byte_fields::Frame;
use replica_peer::Leaving;

/// A step that is made ahead: the peer's, with the frame of its record.
#[derive(Drop)]
pub struct Room {
    pub(crate) made: replica_peer::Room,
    pub(crate) frame: Option<Frame>,
}

impl Room {
    ghost use Rattle.std.specs.Prelude.{◌≡◌};

    /// What will leave, in its order, so that it can be spelled before the disk is written. None of it may be sent before
    /// `step` gives it.
    pub fn leaves(&self) -> &[Leaving]
        ensures { result.now ≡ self.now.made.leaves }
    {
        self.made.leaves()
    }
}
