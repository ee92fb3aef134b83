//! Why a part file isn't opened or written.
ghost use Rattle.std.specs.Prelude.{◌≡◌};
ghost use Rattle.wal_disk.specs.declared.refused.OpenWhy.TheVariants as why;

use disk_model::Failed;
use lists::NoMemory;
use std::alloc::AllocError;

/// The disk failed: its count of faults rose in this call.
#[derive(Clone, Copy)]
pub struct DiskFault;

impl From<Failed> for DiskFault {
    fn from(_e: Failed) -> DiskFault {
        DiskFault
    }
}

/// Why a file wasn't opened.
#[derive(Clone, Copy)]
pub enum OpenWhy {
    /// The disk failed: its count of faults rose in this call.
    DiskFault,
    /// The file is outside the grammar. The place counts bytes from 0.
    BadFile(u64),
    /// There was no memory left.
    NoMemory,
}

impl From<NoMemory> for OpenWhy {
    ghost from_gives = { λ _ e. e ≡ why.NoMemory };

    fn from(_e: NoMemory) -> OpenWhy {
        OpenWhy::NoMemory
    }
}

impl From<AllocError> for OpenWhy {
    ghost from_gives = { λ _ e. e ≡ why.NoMemory };

    fn from(_e: AllocError) -> OpenWhy {
        OpenWhy::NoMemory
    }
}

impl From<Failed> for OpenWhy {
    ghost from_gives = { λ _ e. e ≡ why.DiskFault };

    fn from(_e: Failed) -> OpenWhy {
        OpenWhy::DiskFault
    }
}

/// Why a file wasn't opened, and its disk.
#[derive(Drop)]
pub struct WalRefused<D> {
    /// Why.
    pub why: OpenWhy,
    /// The disk, handed back.
    pub disk: D,
}
