//! Disks that may crash at any moment.
//!
//! A [`Disk`] is one file. It may tell what a read gives, and then also its images: what a crash now may leave, and
//! what a crash at some moment since an earlier one might have left. Between two syncs each written range, and the
//! part past the old end, may hold any bytes in an image; bytes outside stay. After a sync that succeeds the one
//! image is what a read gives. A disk counts its faults, by a number that proofs alone read: a call answers `Failed`
//! exactly where it counted one. Room for calls and bytes is reserved first, and then no call takes memory.
//!
//! The contract: these laws hold of every disk, so that nothing above a disk can invent a fault or an image.
//!
//! [`MemDisk`] keeps its bytes and all its calls in memory, and fails where it was told to. [`FileDisk`] stands over a
//! real file: what the system does with it is trusted, not proved, and it tells no content. [`HostDisk`] is either.
//! A [`Rack`] gives disks by name and takes them back with their faults: [`MemRack`] chooses what a crash leaves by
//! a list of picks, [`FileRack`] has its files in one folder, and [`HostRack`] is either.
//!
//! A [`Pick`] is what was synced, what was read, or what was synced with the last writes and cuts torn: each leaves the
//! bytes that were picked for it. What a pick leaves is an image, and [`each_image`] says that picks reach each image.
//!
//! Below it are `lists` and `outside_io`; above it is the file of records, `wal_disk`.
#![tactic(auto)]

mod call;
mod disk;
mod file_disk;
mod file_rack;
mod host_disk;
mod host_rack;
mod laws;
mod mem_disk;
mod mem_rack;
mod overwriting;
mod pick;
mod plan;
mod planned;
mod rack;
mod tearing;

pub use call::{Call, Made};
pub use disk::Disk;
pub use file_disk::FileDisk;
pub use file_rack::FileRack;
pub use host_disk::HostDisk;
pub use host_rack::HostRack;
pub use laws::{each_image, no_tear};
pub use mem_disk::MemDisk;
pub use mem_rack::{Kept, MemRack, Planned};
pub use outside_io::Failed;
pub use pick::{Pick, Tears};
pub use plan::Plan;
pub use rack::{DiskName, Rack, RackRefused, ReopenRefused};
