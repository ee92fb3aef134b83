//! A rack of either kind.
ghost use Rattle.std.specs.Prelude.{◌≡◌};

use crate::file_rack::FileRack;
use crate::host_disk::HostDisk;
use crate::mem_rack::MemRack;
use crate::pick::Pick;
use crate::rack::{DiskName, Rack, RackRefused, ReopenRefused};
use std::alloc::Global;
use std::fs::Files;
use std::os::unix::fs::FileExt;

/// Disks in memory, or real files. It tells what its kind tells, and the disks that it gives are of its kind. It takes
/// disks of the other kind too, with their faults: it opens a file again as it is, and a disk in memory as it was
/// synced; and a rack in memory that is to keep a file forgets what it kept by that name.
#[derive(Drop)]
pub enum HostRack<R> {
    /// In memory.
    Memory(MemRack),
    /// Real files.
    File(FileRack<R>),
}

impl<R: Files> Rack for HostRack<R>
where
    R::File: FileExt,
{
    ghost use Rattle.disk_model.specs.HostRack.{host_rack_faults, host_rack_back, host_rack_kept, host_rack_rooms};

    type D = HostDisk<R::File>;

    ghost faults = { host_rack_faults };

    ghost back = { host_rack_back };

    ghost kept = { host_rack_kept };

    ghost rooms = { host_rack_rooms };

    fn fresh(&mut self, alloc: Global, name: DiskName) -> Result<Self::D, RackRefused> {
        match self {
            HostRack::Memory(rack) => match rack.fresh(alloc, name) {
                Ok(disk) => Ok(HostDisk::Memory(disk)),
                Err(why) => Err(why),
            },
            HostRack::File(rack) => match rack.fresh(alloc, name) {
                Ok(disk) => Ok(HostDisk::File(disk)),
                Err(why) => Err(why),
            },
        }
    }

    fn reopen(&mut self, alloc: Global, old: Self::D) -> Result<Self::D, ReopenRefused<Self::D>> {
        match (self, old) {
            (HostRack::Memory(rack), HostDisk::Memory(disk)) => match rack.reopen(alloc, disk) {
                Ok(disk) => Ok(HostDisk::Memory(disk)),
                Err(refused) => Err(ReopenRefused {
                    why: refused.why,
                    disk: HostDisk::Memory(refused.disk),
                }),
            },
            (HostRack::File(rack), HostDisk::File(disk)) => match rack.reopen(alloc, disk) {
                Ok(disk) => Ok(HostDisk::File(disk)),
                Err(refused) => Err(ReopenRefused {
                    why: refused.why,
                    disk: HostDisk::File(refused.disk),
                }),
            },
            (HostRack::Memory(_), HostDisk::File(disk)) => Ok(HostDisk::File(disk)),
            (HostRack::File(_), HostDisk::Memory(disk)) => {
                match disk.reopened(alloc, &Pick::Synced) {
                    Ok(disk) => Ok(HostDisk::Memory(disk)),
                    Err(disk) => Err(ReopenRefused {
                        why: RackRefused::NoMemory,
                        disk: HostDisk::Memory(disk),
                    }),
                }
            }
        }
    }

    fn discard(&mut self, old: Self::D) {
        match self {
            HostRack::Memory(rack) => rack.take_back(old.faults()),
            HostRack::File(rack) => rack.take_back(old.faults()),
        }
    }

    fn keep(&mut self, name: DiskName, disk: Self::D) {
        match (self, disk) {
            (HostRack::Memory(rack), HostDisk::Memory(disk)) => rack.keep(name, disk),
            (HostRack::File(rack), HostDisk::File(disk)) => rack.keep(name, disk),
            (HostRack::Memory(rack), HostDisk::File(disk)) => {
                rack.forget(name);
                rack.take_back(&disk.faults);
            }
            (HostRack::File(rack), HostDisk::Memory(disk)) => rack.take_back(&disk.faults),
        }
    }
}
