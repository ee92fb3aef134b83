//! A rack of real files.
ghost use Rattle.std.specs.Prelude.{◌≡◌, ◌≤◌, ◌+◌, None};

use crate::file_disk::FileDisk;
use crate::rack::{DiskName, Rack, RackRefused, ReopenRefused};
use outside_io::Faults;
use std::alloc::Global;
use std::fs::{Files, OpenOptions};
use std::os::unix::fs::FileExt;

/// Files in one folder, each named after its disk: node, part and peer. It tells no content. Each error of the system
/// is a fault.
#[derive(Drop)]
pub struct FileRack<R> {
    files: R,
    folder: String,
    faults: Faults,
    back: Faults,
    rooms: u64,
}

impl<R: Files> FileRack<R> {
    ghost use Rattle.disk_model.specs.Files.{folder_faults, folder_back};

    /// A rack over this folder of these files. The folder has to be there.
    pub fn new(files: R, folder: String) -> FileRack<R>
        ensures faults { folder_faults result ≡ 0 }
        ensures back { folder_back result ≡ 0 }
    {
        FileRack {
            files,
            folder,
            faults: Faults::new(),
            back: Faults::new(),
            rooms: 0,
        }
    }

    /// Adds the faults of a disk that it doesn't keep.
    pub(crate) fn take_back(&mut self, disk: &Faults)
        ensures back { self.new.back.count ≡ self.old.back.count + disk.now.count }
        ensures faults { self.new.faults.count ≡ self.old.faults.count }
        ensures rooms { self.new.rooms ≡ self.old.rooms }
    {
        self.back.add(disk);
    }
}

impl<R: Files> Rack for FileRack<R>
where
    R::File: FileExt,
{
    ghost use Rattle.disk_model.specs.Files.{folder_faults, folder_back, folder_rooms};

    type D = FileDisk<R::File>;

    ghost faults = { folder_faults };

    ghost back = { folder_back };

    ghost kept = { λ _. None };

    ghost rooms = { folder_rooms };

    fn fresh(&mut self, alloc: Global, name: DiskName) -> Result<Self::D, RackRefused> {
        let Some(rooms) = self.rooms.checked_add(1) else {
            return Err(RackRefused::NoMemory);
        };
        let Ok(path) = format!(in alloc;
            "{}/{}-{}-{}",
            self.folder, name.node, name.part, name.peer
        ) else {
            return Err(RackRefused::NoMemory);
        };
        let mut how = OpenOptions::new();
        how.read(true).write(true).create(true).truncate(true);
        match how.open(&self.files, path.as_str()) {
            Ok(file) => {
                self.rooms = rooms;
                Ok(FileDisk::new(file))
            }
            Err(_) => {
                self.faults.rise();
                Err(RackRefused::Fault)
            }
        }
    }

    // A file stays as the system has it.
    fn reopen(&mut self, _alloc: Global, old: Self::D) -> Result<Self::D, ReopenRefused<Self::D>> {
        Ok(old)
    }

    fn discard(&mut self, old: Self::D) {
        self.back.add(&old.faults);
    }

    fn keep(&mut self, _name: DiskName, disk: Self::D) {
        self.back.add(&disk.faults);
        self.rooms -= 1;
    }
}
