//! Why a walk can't go on.
ghost use Rattle.std.specs.Prelude.{◌≡◌};
ghost use Rattle.traversal.specs.declared.refused.WalkRefused.TheVariants as refused;

use lists::NoMemory;
use thiserror::Error;

/// Why a walk can't go on.
#[derive(Debug, Drop, Error)]
pub enum WalkRefused {
    /// The next frontier would have too many vertices.
    #[error("too many vertices")]
    TooWide,
    /// There was no memory left.
    #[error("out of memory")]
    NoMemory,
}

impl From<NoMemory> for WalkRefused {
    ghost from_gives = { λ _ e. e ≡ refused.NoMemory };

    fn from(_e: NoMemory) -> Self {
        WalkRefused::NoMemory
    }
}
