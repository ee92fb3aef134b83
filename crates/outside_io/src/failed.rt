//! A fault of what lies outside.

/// The outside failed. Its count of faults rose in the call that answers this.
#[derive(Clone, Copy, Debug, PartialEq, Eq)]
pub struct Failed;
