//! The record of a step, on its way to the file.
ghost use Rattle.std.specs.Prelude.{◌≡◌, ◌<◌, ℕ, List, Option, None, Some, IfOk, IfSome, OnOk, OnErr, is_some};
ghost use Rattle.std.specs.Option.{option_copied};
ghost use Rattle.disk_model.specs.Disk.{LeavesOnly};
ghost use Rattle.raft_log.specs.Config.{AreEntries};
ghost use Rattle.raft_log.specs.declared.record.Record.{Record as OneRecord};
ghost use Rattle.replica_file.specs.Durable.{Durable, kept};
ghost use Rattle.replica_file.specs.Grammar.{Allowed};
ghost use Rattle.replica_file.specs.OnDisk.{IsKept};
ghost use Rattle.replica_record.specs.Durable.{HasEither};
ghost use Rattle.replica_record.specs.Framed.{IsFramed, MayBeKept};

use byte_fields::Frame;
use disk_model::Disk;
use lists::NoMemory;
use raft_log::Record;
use replica_file::LogFile;
use std::alloc::Global;
use wal_disk::DiskFault;
use wal_frames::encode;

/// The frame of a step's record, where it has one, with room for it on the disk. Refused for want of memory alone; the file and
/// its images stay, whatever is answered.
pub fn make_frame<D: Disk>(
    alloc: Global,
    file: &mut LogFile<D>,
    made: Option<&Record>,
) -> Result<Option<Frame>, NoMemory>
    requires { IfSome (option_copied made) (λ r. AreEntries r.entries) }
    ensures framed { (allowed : Allowed) → MayBeKept allowed (option_copied made.entry) → IfOk result (IsFramed allowed (D.room_calls file.new.0) (D.room_bytes file.new.0) (option_copied made.entry)) }
    ensures kept { (allowed : Allowed) (d : Durable) → IsKept D.reads D.may_leave allowed d file.old → IsKept D.reads D.may_leave allowed d file.new }
    ensures reads { D.reads file.new.0 ≡ D.reads file.old.0 }
    ensures any_moment { LeavesOnly D.clock D.left_since file.old.0 file.new.0 (D.may_leave file.old.0) }
    ensures faults { D.faults file.new.0 ≡ D.faults file.old.0 }
{
    let Some(made) = made else {
        return Ok(None);
    };
    let frame = encode(alloc, made)?;
    file.reserve(alloc, frame.len())?;
    Ok(Some(frame))
}

/// Makes the record of a step durable, where it has one, by its frame; without one nothing happens. A crash at any moment of
/// the call leaves the state before, or that with the record. It takes no memory.
pub fn make_durable<D: Disk>(file: &mut LogFile<D>, frame: &Option<Frame>) -> Result<(), DiskFault>
    requires kept { (allowed : Allowed) × (d : Durable) × (r : Option OneRecord) × IsKept D.reads D.may_leave allowed d file.old × IsFramed allowed (D.room_calls file.old.0) (D.room_bytes file.old.0) r frame.now }
    ensures acknowledged { (allowed : Allowed) (d : Durable) (r : Option OneRecord) → IsFramed allowed (D.room_calls file.old.0) (D.room_bytes file.old.0) r frame.now
        → IsKept D.reads D.may_leave allowed d file.old → OnOk result (IsKept D.reads D.may_leave allowed (kept d r) file.new) }
    ensures any_moment { (allowed : Allowed) (d : Durable) (r : Option OneRecord) (bytes : List ℕ) → IsFramed allowed (D.room_calls file.old.0) (D.room_bytes file.old.0) r frame.now
        → IsKept D.reads D.may_leave allowed d file.old → D.reads file.old.0 ≡ Some bytes → LeavesOnly D.clock D.left_since file.old.0 file.new.0 (HasEither allowed d r) }
    ensures left { (allowed : Allowed) (d : Durable) (r : Option OneRecord) (bytes next : List ℕ) → IsFramed allowed (D.room_calls file.old.0) (D.room_bytes file.old.0) r frame.now
        → IsKept D.reads D.may_leave allowed d file.old → D.reads file.old.0 ≡ Some bytes → D.reads file.new.0 ≡ Some next → HasEither allowed d r next }
    ensures told { is_some (D.reads file.new.0) ≡ is_some (D.reads file.old.0) }
    ensures untouched { frame.now ≡ None → file.new ≡ file.old }
    ensures steady { OnOk result (D.faults file.new.0 ≡ D.faults file.old.0) }
    ensures risen { OnErr result (D.faults file.old.0 < D.faults file.new.0) }
{
    match frame {
        Some(frame) => file.keep(frame),
        None => Ok(()),
    }
}
