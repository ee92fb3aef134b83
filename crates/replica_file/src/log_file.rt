//! The file of a replica on its disk.
ghost use Rattle.std.specs.Prelude.{◌≡◌, ◌≤◌, ◌<◌, ◌+◌, true, ℕ, [], ◌∷◌, List, length, IfOk, IfErr, IfSome, OnOk, OnErr, Some, is_some};
ghost use Rattle.disk_model.specs.Disk.{LeavesOnly, SameImages};
ghost use Rattle.byte_fields.specs.Frames.{IsFrame};
ghost use Rattle.raft_log.specs.Config.{IsConfig};
ghost use Rattle.raft_log.specs.declared.record.Record.{Record as OneRecord};
ghost use Rattle.replica_file.specs.Durable.{Durable as State, kept_by};
ghost use Rattle.wal_disk.specs.Sound.{IsSound};
ghost use Rattle.wal_disk.specs.Cause.{HasCause, NeverBad};
ghost use Rattle.wal_disk.specs.declared.refused.OpenWhy.TheVariants as why;
ghost use Rattle.wal_frames.specs.Spelling.{body};
ghost use Rattle.replica_file.specs.Grammar.{Allowed, all_may, file_version, IsRecord};
ghost use Rattle.replica_file.specs.Laws.{IsBeforeOrBehind};
ghost use Rattle.replica_file.specs.OnDisk.{IsKept, IsBadIn, founded};
ghost use Rattle.replica_file.specs.Seen.{durable_of};

use crate::durable::Durable;
use crate::folding::folded;
use crate::founding::first_frame;
use crate::payloads::Payloads;
use crate::reading::FILE_VERSION;
use crate::refused::FoldRefused;
use byte_fields::Frame;
use disk_model::Disk;
use lists::NoMemory;
use raft_log::Config;
use std::alloc::Global;
use std::marker::Model;
use wal_disk::{DiskFault, OpenWhy, Wal, WalRefused};

/// The file of a replica on its disk. It keeps a durable state where, as far as its disk tells what it reads, the fold of the
/// file's records is that state, all of the file is on the disk, and the next record can be appended.
#[derive(Drop)]
pub struct LogFile<D> {
    wal: Wal<D>,
}

impl<D> Model for LogFile<D> {
    ghost use Rattle.std.specs.Prelude.{ℕ};

    ghost Value = { D × ℕ };

    ghost view = { λ file. file.wal };
}

/// A replica's file that was there, and what is durable in it.
#[derive(Drop)]
pub struct Found<D> {
    pub file: LogFile<D>,
    pub durable: Durable,
}

// Makes the disk's file new, with one record. Its room is made first, so that memory runs out before the file changes.
fn write_first<D: Disk>(alloc: Global, disk: D, frame: &Frame) -> Result<Wal<D>, WalRefused<D>>
    requires { (body : List ℕ) × IsFrame body frame.now }
    ensures ok { (first : List ℕ) → IsFrame first frame.now → IfOk result (λ wal. IsSound D.reads D.may_leave file_version (first ∷ []) wal) }
    ensures told { IfOk result (λ wal. is_some (D.reads wal.0) ≡ is_some (D.reads disk)) }
    ensures faults { IfOk result (λ wal. D.faults wal.0 ≡ D.faults disk) }
    ensures cause { IfErr result (λ e. HasCause NeverBad (D.faults disk) (D.faults e.disk) e.why) }
    ensures handed_back { IfErr result (λ e. is_some (D.reads e.disk) ≡ is_some (D.reads disk)) }
    ensures unchanged { IfErr result (λ e. e.why ≡ why.NoMemory →
        (D.reads e.disk ≡ D.reads disk) × SameImages (D.may_leave disk) (D.may_leave e.disk)) }
{
    let mut disk = disk;
    let bytes = frame.as_slice().len() + 6;
    if disk.reserve(alloc, 7, bytes).is_err() {
        return Err(WalRefused {
            why: OpenWhy::NoMemory,
            disk,
        });
    }
    let mut wal = Wal::create(alloc, disk, FILE_VERSION)?;
    match wal.append(frame) {
        Ok(()) => Ok(wal),
        Err(DiskFault) => Err(WalRefused {
            why: OpenWhy::DiskFault,
            disk: wal.shut(),
        }),
    }
}

impl<D: Disk> LogFile<D> {
    /// Makes the disk's file new, with a group's first configuration or with nothing. A refusal hands the disk back: for want of
    /// memory as it was, and else with a file that is made again. A crash in this call leaves a file without promise.
    pub fn create(
        alloc: Global,
        disk: D,
        first: Option<Config>,
    ) -> Result<LogFile<D>, WalRefused<D>>
        requires { IfSome first IsConfig }
        ensures ok { (allowed : Allowed) → IfOk result (λ file. IsKept D.reads D.may_leave allowed (founded first) file) }
        ensures told { IfOk result (λ file. is_some (D.reads file.0) ≡ is_some (D.reads disk)) }
        ensures faults { IfOk result (λ file. D.faults file.0 ≡ D.faults disk) }
        ensures cause { IfErr result (λ e. HasCause NeverBad (D.faults disk) (D.faults e.disk) e.why) }
        ensures handed_back { IfErr result (λ e. is_some (D.reads e.disk) ≡ is_some (D.reads disk)) }
        ensures unchanged { IfErr result (λ e. e.why ≡ why.NoMemory →
            (D.reads e.disk ≡ D.reads disk) × SameImages (D.may_leave disk) (D.may_leave e.disk)) }
    {
        let Some(first) = first else {
            let wal = Wal::create(alloc, disk, FILE_VERSION)?;
            return Ok(LogFile { wal });
        };
        match first_frame(alloc, first) {
            Ok(frame) => {
                let wal = write_first(alloc, disk, &frame)?;
                Ok(LogFile { wal })
            }
            Err(NoMemory) => Err(WalRefused {
                why: OpenWhy::NoMemory,
                disk,
            }),
        }
    }

    /// The file that a crash or a fault may have left, and what is durable in it: the fold of its records. A refusal hands the
    /// disk back with the file that it had: the disk failed, or the file is none of this replica, at this place, or memory ran
    /// out. A file of another version is none, at 0.
    pub fn recover<P: Payloads>(
        alloc: Global,
        payloads: &P,
        disk: D,
    ) -> Result<Found<D>, WalRefused<D>>
        ensures ok { IfOk result (λ found. IsKept D.reads D.may_leave (P.allowed payloads.now) (durable_of found.durable) found.file) }
        ensures own { IfOk result (λ found. all_may (P.allowed payloads.now) found.durable.log.0 ≡ true) }
        ensures reads { IfOk result (λ found. D.reads found.file.0 ≡ D.reads disk) }
        ensures any_moment { IfOk result (λ found. LeavesOnly D.clock D.left_since disk found.file.0 (D.may_leave disk)) }
        ensures faults { IfOk result (λ found. D.faults found.file.0 ≡ D.faults disk) }
        ensures cause { IfErr result (λ e. HasCause (IsBadIn (P.allowed payloads.now) (D.reads disk)) (D.faults disk) (D.faults e.disk) e.why) }
        ensures handed_back { IfErr result (λ e. D.reads e.disk ≡ D.reads disk) }
        ensures any_moment_err { IfErr result (λ e. LeavesOnly D.clock D.left_since disk e.disk (D.may_leave disk)) }
    {
        let found = Wal::recover(alloc, disk)?;
        let wal = found.wal;
        if found.version != FILE_VERSION {
            return Err(WalRefused {
                why: OpenWhy::BadFile(0),
                disk: wal.shut(),
            });
        }
        match folded(alloc, payloads, &found.bodies) {
            Ok(durable) => Ok(Found {
                file: LogFile { wal },
                durable,
            }),
            Err(refused) => Err(WalRefused {
                why: refused.into(),
                disk: wal.shut(),
            }),
        }
    }

    /// Makes room for one record whose frame has at most so many bytes. Refused for want of memory alone; the file and its
    /// images stay, whatever is answered.
    pub fn reserve(&mut self, alloc: Global, bytes: usize) -> Result<(), NoMemory>
        ensures ok { OnOk result ((4 ≤ D.room_calls self.new.0) × (bytes + 1 ≤ D.room_bytes self.new.0)) }
        ensures kept { (allowed : Allowed) (d : State) → IsKept D.reads D.may_leave allowed d self.old → IsKept D.reads D.may_leave allowed d self.new }
        ensures reads { D.reads self.new.0 ≡ D.reads self.old.0 }
        ensures any_moment { LeavesOnly D.clock D.left_since self.old.0 self.new.0 (D.may_leave self.old.0) }
        ensures faults { D.faults self.new.0 ≡ D.faults self.old.0 }
    {
        self.wal.reserve(alloc, bytes)
    }

    /// Makes a record of the replica durable. Once it answered Ok each crash leaves the state behind the record. A crash at any
    /// moment of the call leaves the state before, or that behind the record. After a fault the file is to be recovered. It
    /// takes no memory.
    pub fn keep(&mut self, frame: &Frame) -> Result<(), DiskFault>
        requires frame { (allowed : Allowed) × (r : OneRecord) × IsFrame (body r) frame.now × IsRecord allowed r }
        requires kept { (allowed : Allowed) × (d : State) × IsKept D.reads D.may_leave allowed d self.old }
        requires reserved { (4 ≤ D.room_calls self.old.0) × (length frame.now + 1 ≤ D.room_bytes self.old.0) }
        ensures acknowledged { (allowed : Allowed) (d : State) (r : OneRecord) → IsFrame (body r) frame.now → IsRecord allowed r
            → IsKept D.reads D.may_leave allowed d self.old → OnOk result (IsKept D.reads D.may_leave allowed (kept_by d r) self.new) }
        ensures told { is_some (D.reads self.new.0) ≡ is_some (D.reads self.old.0) }

        // A crash at any moment of the call.
        ensures any_moment { (allowed : Allowed) (d : State) (r : OneRecord) (file : List ℕ) → IsFrame (body r) frame.now → IsRecord allowed r
            → IsKept D.reads D.may_leave allowed d self.old → D.reads self.old.0 ≡ Some file
            → LeavesOnly D.clock D.left_since self.old.0 self.new.0 (IsBeforeOrBehind allowed d r) }

        // What is read after a fault too.
        ensures left { (allowed : Allowed) (d : State) (r : OneRecord) (file next : List ℕ) → IsFrame (body r) frame.now → IsRecord allowed r
            → IsKept D.reads D.may_leave allowed d self.old → D.reads self.old.0 ≡ Some file
            → D.reads self.new.0 ≡ Some next → IsBeforeOrBehind allowed d r next }
        ensures steady { OnOk result (D.faults self.new.0 ≡ D.faults self.old.0) }
        ensures risen { OnErr result (D.faults self.old.0 < D.faults self.new.0) }
    {
        self.wal.append(frame)
    }

    /// The disk. It takes no memory.
    pub fn shut(self) -> D
        ensures { result ≡ self.0 }
    {
        self.wal.shut()
    }
}
