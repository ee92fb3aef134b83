//! A disk over a real file.
ghost use Rattle.std.specs.Prelude.{◌≡◌, ◌≤◌, ◌^◌, length, IfOk, None};
ghost use Rattle.std.specs.Bool.{⊤};
ghost use Rattle.std.proofs.lemmas.Option.{none-some};

use crate::disk::Disk;
use lists::NoMemory;
use outside_io::{Failed, Faults};
use std::alloc::Global;
use std::fs::OpenFile;
use std::os::unix::fs::FileExt;

/// A file of the system. It tells no content: that the file gives what was written to it, and that a sync puts it on
/// the disk, is trusted. Each error of the system is a fault, an interrupted call too.
#[derive(Drop)]
pub struct FileDisk<F> {
    file: F,
    pub(crate) faults: Faults,
}

impl<F: OpenFile + FileExt> FileDisk<F> {
    /// A disk over this file.
    pub fn new(file: F) -> FileDisk<F>
        ensures { ⟦<FileDisk<F> as Disk>⟧.faults result ≡ 0 }
    {
        FileDisk {
            file,
            faults: Faults::new(),
        }
    }
}

// Reads on and on from this place, until `into` is full or the file ends.
fn read_front<F: FileExt>(file: &F, at: u64, into: &mut [u8]) -> Result<usize, Failed>
    ensures { IfOk result (λ n. n ≤ length into.new) }
{
    let mut done = 0;
    while done < into.len() {
        match file.read_at(&mut into[done..], at.saturating_add(done as u64)) {
            Ok(0) => return Ok(done),
            Ok(read) => done += read,
            Err(_) => return Err(Failed),
        }
    }
    Ok(done)
}

impl<F: OpenFile + FileExt> Disk for FileDisk<F> {
    ghost use Rattle.disk_model.specs.Files.{file_faults};

    ghost faults = { file_faults };

    ghost reads = { λ _. None };

    ghost may_leave = { λ _ _. ⊤ };

    ghost clock = { λ _. 0 };

    ghost left_since = { λ _ _ _. ⊤ };

    // Its calls take no memory.
    ghost room_calls = { λ _. 2 ^ 64 };

    ghost room_bytes = { λ _. 2 ^ 64 };

    ghost is_image = { λ _ _ _. tt };

    ghost fits = { λ _ file told. absurd (none-some file told) };

    ghost counts_now = { λ _ _ _ _ _. tt };

    ghost only_now = { λ _ _ _. tt };

    fn reserve(&mut self, _alloc: Global, _calls: usize, _bytes: usize) -> Result<(), NoMemory> {
        Ok(())
    }

    fn len(&mut self) -> Result<u64, Failed> {
        match self.file.metadata() {
            Ok(told) => Ok(told.len()),
            Err(_) => {
                self.faults.rise();
                Err(Failed)
            }
        }
    }

    fn read_at(&mut self, at: u64, into: &mut [u8]) -> Result<usize, Failed> {
        match read_front(&self.file, at, into) {
            Ok(read) => Ok(read),
            Err(failed) => {
                self.faults.rise();
                Err(failed)
            }
        }
    }

    fn write_at(&mut self, at: u64, from: &[u8]) -> Result<(), Failed> {
        match self.file.write_all_at(from, at) {
            Ok(()) => Ok(()),
            Err(_) => {
                self.faults.rise();
                Err(Failed)
            }
        }
    }

    fn cut(&mut self, len: u64) -> Result<(), Failed> {
        match self.file.set_len(len) {
            Ok(()) => Ok(()),
            Err(_) => {
                self.faults.rise();
                Err(Failed)
            }
        }
    }

    fn sync(&mut self) -> Result<(), Failed> {
        match self.file.sync_all() {
            Ok(()) => Ok(()),
            Err(_) => {
                self.faults.rise();
                Err(Failed)
            }
        }
    }
}
