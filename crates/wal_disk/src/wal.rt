//! The file of records.
ghost use Rattle.std.specs.Prelude.{◌≡◌, ◌≤◌, ◌<◌, ◌+◌, ◌^◌, ◌++◌, [], ◌∷◌, ℕ, List, length, IfOk, IfErr, OnOk, OnErr, Some, is_some};
ghost use Rattle.disk_model.specs.Disk.{LeavesOnly, SameImages};
ghost use Rattle.wal_disk.specs.Cause.{HasCause, NeverBad};
ghost use Rattle.byte_fields.specs.Frames.{IsFrame};
ghost use Rattle.byte_fields.specs.Versions.{IsVersion};
ghost use Rattle.wal_disk.specs.File.{IsBeforeOrAfter, front};
ghost use Rattle.wal_disk.specs.Sound.{IsSound, IsBadIn};
ghost use Rattle.wal_disk.specs.declared.refused.OpenWhy.TheVariants as why;

use crate::Bodies;
use crate::opening::{FIRST_GATE, read_all, write_new};
use crate::refused::{DiskFault, OpenWhy, WalRefused};
use crate::writing::put;
use byte_fields::{Frame, OPEN_GATE};
use disk_model::Disk;
use lists::NoMemory;
use std::alloc::Global;
use std::marker::Model;

/// A part file, which contracts see as its disk and the place of its gate. It is sound where, as far as its disk tells
/// what it reads, the file has some records, the closed gate behind them stands where the next record is to open it, and
/// all of the file is on the disk.
#[derive(Drop)]
pub struct Wal<D> {
    disk: D,
    gate: u64,
}

impl<D> Model for Wal<D> {
    ghost use Rattle.std.specs.Prelude.{ℕ};

    ghost Value = { D × ℕ };

    ghost view = { λ w. (w.disk, w.gate) };
}

/// A file that was there, with its version and the bodies of its records.
#[derive(Drop)]
pub struct Recovered<D> {
    /// The version, 1 or 2.
    pub version: u8,
    /// The file.
    pub wal: Wal<D>,
    /// The bodies, in order.
    pub bodies: Bodies,
}

impl<D: Disk> Wal<D> {
    /// Makes the disk's file new, of this version and without a record, by three calls and five written bytes. A refusal hands the disk back: for want of memory as it was, and
    /// else with a file that is made again. A crash in this call leaves a file without promise.
    pub fn create(alloc: Global, disk: D, version: u8) -> Result<Wal<D>, WalRefused<D>>
        requires { IsVersion version }
        ensures ok { IfOk result (λ wal. IsSound D.reads D.may_leave version [] wal) }
        ensures told { IfOk result (λ wal. is_some (D.reads wal.0) ≡ is_some (D.reads disk)) }
        ensures room { IfOk result (λ wal. (D.room_calls disk ≤ D.room_calls wal.0 + 3) × (D.room_bytes disk ≤ D.room_bytes wal.0 + 5)) }
        ensures faults { IfOk result (λ wal. D.faults wal.0 ≡ D.faults disk) }
        ensures cause { IfErr result (λ e. HasCause NeverBad (D.faults disk) (D.faults e.disk) e.why) }
        ensures handed_back { IfErr result (λ e. is_some (D.reads e.disk) ≡ is_some (D.reads disk)) }
        ensures unchanged { IfErr result (λ e. e.why ≡ why.NoMemory →
            (D.reads e.disk ≡ D.reads disk) × SameImages (D.may_leave disk) (D.may_leave e.disk)) }
    {
        let mut disk = disk;
        match write_new(alloc, &mut disk, version) {
            Ok(()) => Ok(Wal {
                disk,
                gate: FIRST_GATE,
            }),
            Err(why) => Err(WalRefused { why, disk }),
        }
    }

    /// The version and the records of a file that a crash or a fault may have left. A refusal hands the disk back with the file that
    /// it had: the disk failed, or the file is outside the grammar at this place, or memory ran out.
    pub fn recover(alloc: Global, disk: D) -> Result<Recovered<D>, WalRefused<D>>
        ensures ok { IfOk result (λ found. IsSound D.reads D.may_leave found.version found.bodies found.wal) }
        ensures place { IfOk result (λ found. (found.wal.1 ≡ length (front found.version found.bodies)) × (found.wal.1 < 2 ^ 64)) }
        ensures reads { IfOk result (λ found. D.reads found.wal.0 ≡ D.reads disk) }
        ensures any_moment { IfOk result (λ found. LeavesOnly D.clock D.left_since disk found.wal.0 (D.may_leave disk)) }
        ensures faults { IfOk result (λ found. D.faults found.wal.0 ≡ D.faults disk) }
        ensures cause { IfErr result (λ e. HasCause (IsBadIn (D.reads disk)) (D.faults disk) (D.faults e.disk) e.why) }
        ensures handed_back { IfErr result (λ e. D.reads e.disk ≡ D.reads disk) }
        ensures any_moment_err { IfErr result (λ e. LeavesOnly D.clock D.left_since disk e.disk (D.may_leave disk)) }
    {
        let mut disk = disk;
        match read_all(alloc, &mut disk) {
            Ok(found) => Ok(Recovered {
                version: found.version,
                wal: Wal {
                    disk,
                    gate: found.gate,
                },
                bodies: found.bodies,
            }),
            Err(why) => Err(WalRefused { why, disk }),
        }
    }

    /// Makes room for one append of a frame of at most so many bytes. Refused for want of memory alone; the file and
    /// its images stay, whatever is answered.
    pub fn reserve(&mut self, alloc: Global, bytes: usize) -> Result<(), NoMemory>
        ensures ok { OnOk result ((4 ≤ D.room_calls self.new.0) × (bytes + 1 ≤ D.room_bytes self.new.0)) }
        ensures sound { (version : ℕ) (bodies : List (List ℕ)) → IsSound D.reads D.may_leave version bodies self.old
            → IsSound D.reads D.may_leave version bodies self.new }
        ensures reads { D.reads self.new.0 ≡ D.reads self.old.0 }
        ensures any_moment { LeavesOnly D.clock D.left_since self.old.0 self.new.0 (D.may_leave self.old.0) }
        ensures faults { D.faults self.new.0 ≡ D.faults self.old.0 }
    {
        let Some(with_gate) = bytes.checked_add(1) else {
            return Err(NoMemory);
        };
        self.disk.reserve(alloc, 4, with_gate)
    }

    /// Appends a record. Once it answered Ok each crash leaves the record. A crash at any moment of the call leaves the
    /// records from before it, with the new one or without. After a fault the file is to be recovered. It takes no
    /// memory.
    pub fn append(&mut self, frame: &Frame) -> Result<(), DiskFault>
        requires frame { (body : List ℕ) × IsFrame body frame.now }
        requires sound { (version : ℕ) × (bodies : List (List ℕ)) × IsSound D.reads D.may_leave version bodies self.old }
        requires reserved { (4 ≤ D.room_calls self.old.0) × (length frame.now + 1 ≤ D.room_bytes self.old.0) }

        ensures acknowledged { (version : ℕ) (bodies : List (List ℕ)) (body : List ℕ) → IsFrame body frame.now
            → IsSound D.reads D.may_leave version bodies self.old
            → OnOk result (IsSound D.reads D.may_leave version (bodies ++ body ∷ []) self.new) }
        ensures told { is_some (D.reads self.new.0) ≡ is_some (D.reads self.old.0) }

        // A crash at any moment of the call.
        ensures any_moment { (version : ℕ) (bodies : List (List ℕ)) (body file : List ℕ) → IsFrame body frame.now
            → IsSound D.reads D.may_leave version bodies self.old → D.reads self.old.0 ≡ Some file
            → LeavesOnly D.clock D.left_since self.old.0 self.new.0 (IsBeforeOrAfter version bodies body) }

        // What is read after a fault too.
        ensures left { (version : ℕ) (bodies : List (List ℕ)) (body file next : List ℕ) → IsFrame body frame.now
            → IsSound D.reads D.may_leave version bodies self.old → D.reads self.old.0 ≡ Some file
            → D.reads self.new.0 ≡ Some next → IsBeforeOrAfter version bodies body next }

        ensures steady { OnOk result (D.faults self.new.0 ≡ D.faults self.old.0) }
        ensures risen { OnErr result (D.faults self.old.0 < D.faults self.new.0) }
    {
        let bytes = frame.as_slice();
        // A file's length fits its number, so no place of it does more than that.
        put(&mut self.disk, self.gate.saturating_add(1), bytes)?;
        put(&mut self.disk, self.gate, &[OPEN_GATE])?;
        self.gate = self.gate.saturating_add(bytes.len() as u64);
        Ok(())
    }

    /// The disk. It takes no memory.
    pub fn shut(self) -> D
        ensures { result ≡ self.0 }
    {
        self.disk
    }
}
