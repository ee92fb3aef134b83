//! A new file, and the records of one that is there.
ghost use Rattle.std.specs.Prelude.{◌≡◌, ◌≤◌, ◌+◌, [], ◌∷◌, ◌++◌, ℕ, List, length, IfOk, IfErr, OnOk, Some, is_some};
ghost use Rattle.disk_model.specs.Disk.{LeavesOnly, SameImages};
ghost use Rattle.byte_fields.specs.Frames.{closed_gate};
ghost use Rattle.byte_fields.specs.Versions.{IsVersion};
ghost use Rattle.wal_disk.specs.Cause.{HasCause, NeverBad};
ghost use Rattle.wal_disk.specs.File.{magic, front};
ghost use Rattle.wal_disk.specs.Sound.{IsSound, IsBadIn};
ghost use Rattle.wal_disk.specs.declared.refused.OpenWhy.TheVariants as why;

use crate::reading::{Records, read_records};
use crate::refused::OpenWhy;
use crate::writing::put;
use byte_fields::CLOSED_GATE;
use disk_model::Disk;
use std::alloc::Global;

/// The place of a new file's gate.
pub(crate) const FIRST_GATE: u64 = 4;

// The magic of the version and a closed gate.
fn new_file(version: u8) -> [u8; 5]
    requires { IsVersion version }
    ensures { result ≡ magic version ++ closed_gate ∷ [] }
{
    [0x4e, 0x42, 0x57, 0x30 + version, CLOSED_GATE]
}

/// Makes the file new: of this version, without a record, and on the disk.
pub(crate) fn write_new<D: Disk>(alloc: Global, disk: &mut D, version: u8) -> Result<(), OpenWhy>
    requires { IsVersion version }
    ensures ok { OnOk result (IsSound D.reads D.may_leave version [] (disk.new, 4)) }
    ensures told { is_some (D.reads disk.new) ≡ is_some (D.reads disk.old) }
    ensures room { OnOk result ((D.room_calls disk.old ≤ D.room_calls disk.new + 3) × (D.room_bytes disk.old ≤ D.room_bytes disk.new + 5)) }
    ensures faults { OnOk result (D.faults disk.new ≡ D.faults disk.old) }
    ensures cause { IfErr result (HasCause NeverBad (D.faults disk.old) (D.faults disk.new)) }
    ensures no_memory { IfErr result (λ e. e ≡ why.NoMemory → D.reads disk.new ≡ D.reads disk.old) }
    ensures images { IfErr result (λ e. e ≡ why.NoMemory → SameImages (D.may_leave disk.old) (D.may_leave disk.new)) }
{
    let file = new_file(version);
    disk.reserve(alloc, 3, file.len())?;
    disk.cut(0)?;
    put(disk, 0, &file)?;
    Ok(())
}

/// Reads the records of a file that a crash may have left. What is read is on the disk first.
pub(crate) fn read_all<D: Disk>(alloc: Global, disk: &mut D) -> Result<Records, OpenWhy>
    ensures ok { IfOk result (λ found. IsSound D.reads D.may_leave found.version found.bodies (disk.new, found.gate)) }
    ensures place { IfOk result (λ found. found.gate ≡ length (front found.version found.bodies)) }
    ensures reads { D.reads disk.new ≡ D.reads disk.old }
    ensures any_moment { LeavesOnly D.clock D.left_since disk.old disk.new (D.may_leave disk.old) }
    ensures faults { OnOk result (D.faults disk.new ≡ D.faults disk.old) }
    ensures cause { IfErr result (HasCause (IsBadIn (D.reads disk.old)) (D.faults disk.old) (D.faults disk.new)) }
{
    disk.reserve(alloc, 1, 0)?;
    // What is read has to be on the disk before a record is told: a crash might leave less of it.
    disk.sync()?;
    let len = disk.len()? as usize;
    let mut file = vec![in alloc; 0; len]?;
    let read = disk.read_at(0, &mut file)?;
    read_records(alloc, &file[..read])
}
