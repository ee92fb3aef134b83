//! A disk of either kind.
ghost use Rattle.std.specs.Prelude.{◌≡◌};

use crate::disk::Disk;
use crate::file_disk::FileDisk;
use crate::mem_disk::MemDisk;
use lists::NoMemory;
use outside_io::{Failed, Faults};
use std::alloc::Global;
use std::fs::OpenFile;
use std::os::unix::fs::FileExt;

/// A disk in memory, or a real file. It tells what the kind tells.
#[derive(Drop)]
pub enum HostDisk<F> {
    /// In memory.
    Memory(MemDisk),
    /// A real file.
    File(FileDisk<F>),
}

impl<F> HostDisk<F> {
    ghost use Rattle.disk_model.specs.Host.{host_faults};

    /// The faults that it had.
    pub(crate) fn faults(&self) -> &Faults
        ensures { result.now.count ≡ host_faults self.now }
    {
        match self {
            HostDisk::Memory(disk) => &disk.faults,
            HostDisk::File(disk) => &disk.faults,
        }
    }
}

impl<F: OpenFile + FileExt> Disk for HostDisk<F> {
    ghost use Rattle.disk_model.specs.Host.{host_faults, host_reads, HostLeft, host_clock, HostSince, host_calls, host_bytes};
    ghost use Rattle.disk_model.specs.Host.{host_is_image, host_fits, host_counts, host_only};

    ghost faults = { host_faults };

    ghost reads = { host_reads };

    ghost may_leave = { HostLeft };

    ghost clock = { host_clock };

    ghost left_since = { HostSince };

    ghost room_calls = { host_calls };

    ghost room_bytes = { host_bytes };

    ghost is_image = { host_is_image };

    ghost fits = { host_fits };

    ghost counts_now = { host_counts };

    ghost only_now = { host_only };

    fn reserve(&mut self, alloc: Global, calls: usize, bytes: usize) -> Result<(), NoMemory> {
        match self {
            HostDisk::Memory(disk) => disk.reserve(alloc, calls, bytes),
            HostDisk::File(disk) => disk.reserve(alloc, calls, bytes),
        }
    }

    fn len(&mut self) -> Result<u64, Failed> {
        match self {
            HostDisk::Memory(disk) => disk.len(),
            HostDisk::File(disk) => disk.len(),
        }
    }

    fn read_at(&mut self, at: u64, into: &mut [u8]) -> Result<usize, Failed> {
        match self {
            HostDisk::Memory(disk) => disk.read_at(at, into),
            HostDisk::File(disk) => disk.read_at(at, into),
        }
    }

    fn write_at(&mut self, at: u64, from: &[u8]) -> Result<(), Failed> {
        match self {
            HostDisk::Memory(disk) => disk.write_at(at, from),
            HostDisk::File(disk) => disk.write_at(at, from),
        }
    }

    fn cut(&mut self, len: u64) -> Result<(), Failed> {
        match self {
            HostDisk::Memory(disk) => disk.cut(len),
            HostDisk::File(disk) => disk.cut(len),
        }
    }

    fn sync(&mut self) -> Result<(), Failed> {
        match self {
            HostDisk::Memory(disk) => disk.sync(),
            HostDisk::File(disk) => disk.sync(),
        }
    }
}
