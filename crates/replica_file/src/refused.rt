//! Why the bodies of a file leave no state.
ghost use Rattle.std.specs.Prelude.{◌≡◌};
ghost use Rattle.replica_file.specs.declared.refused.FoldRefused.TheVariants as refusals;
ghost use Rattle.replica_file.specs.Refused.{why_of};

use lists::NoMemory as OutOfMemory;
use wal_disk::OpenWhy;

/// Why the bodies of a file leave no state.
#[derive(Clone, Copy)]
pub enum FoldRefused {
    /// The first field that doesn't fit begins at this place of the file, counted from 0.
    BadFile(u64),
    /// There was no memory left.
    NoMemory,
}

impl From<OutOfMemory> for FoldRefused {
    ghost from_gives = { λ _ refused. refused ≡ refusals.NoMemory };

    fn from(_e: OutOfMemory) -> FoldRefused {
        FoldRefused::NoMemory
    }
}

impl From<FoldRefused> for OpenWhy {
    ghost from_gives = { λ refused why. why ≡ why_of refused };

    fn from(refused: FoldRefused) -> OpenWhy {
        match refused {
            FoldRefused::BadFile(at) => OpenWhy::BadFile(at),
            FoldRefused::NoMemory => OpenWhy::NoMemory,
        }
    }
}
