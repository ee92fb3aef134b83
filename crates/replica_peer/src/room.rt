//! A step that is made ahead.
use crate::next::Next;
use member_change::ChangeRefused;
use raft_log::Record;
use replica_state::{Leaves, Leaving};

/// A step that is made ahead: its record, where it has one, what leaves once the record is durable, and why a change of the
/// members is refused, where it is.
#[derive(Drop)]
pub struct Room {
    pub(crate) kept: Option<Record>,
    pub(crate) leaves: Leaves,
    pub(crate) change: Option<ChangeRefused>,
    pub(crate) next: Next,
}

impl Room {
    /// A step with no record: what leaves, and what becomes of the peer.
    pub(crate) fn of(leaves: Leaves, next: Next) -> Room
        ensures { result ≡ record { kept = None; leaves = leaves; change = None; next = next } }
    {
        Room {
            kept: None,
            leaves,
            change: None,
            next,
        }
    }

    ghost use Rattle.std.specs.Prelude.{◌≡◌, None};
    ghost use Rattle.std.specs.Option.{option_copied};

    /// The record that the step makes durable.
    pub fn kept(&self) -> Option<&Record>
        ensures { option_copied result ≡ self.now.kept }
    {
        self.kept.as_ref()
    }

    /// What leaves, in its order.
    pub fn leaves(&self) -> &[Leaving]
        ensures { result.now ≡ self.now.leaves }
    {
        self.leaves.as_slice()
    }

    /// Why a change of the members is refused.
    pub fn change(&self) -> Option<ChangeRefused>
        ensures { result ≡ self.now.change }
    {
        self.change
    }
}
