//! A write that is on the disk when it returns.
ghost use Rattle.std.specs.Prelude.{◌≡◌, ◌≤◌, ◌<◌, ◌+◌, ℕ, List, length, IfSome, OnOk, OnErr};
ghost use Rattle.std.specs.Option.{option_map};
ghost use Rattle.disk_model.specs.Disk.{written_over, Torn, Told, Only, LeavesOnly, Counts};
ghost use Rattle.wal_disk.specs.Torn.{IsTornFrom};

use disk_model::{Disk, Failed};

/// Writes these bytes at this place, and syncs. A crash at any moment leaves an old image after that write, which may
/// be torn.
pub(crate) fn put<D: Disk>(disk: &mut D, at: u64, bytes: &[u8]) -> Result<(), Failed>
    requires reserved { (2 ≤ D.room_calls disk.old) × (length bytes.now ≤ D.room_bytes disk.old) }
    requires inside { IfSome (D.reads disk.old) (λ file. at ≤ length file) }
    ensures ok { OnOk result (D.reads disk.new ≡ option_map (written_over at bytes.now) (D.reads disk.old)) }
    ensures durable { OnOk result (IfSome (D.reads disk.new) (λ file. Only file (D.may_leave disk.new))) }
    ensures failed { OnErr result (Told (Torn at (length bytes.now)) (D.reads disk.old) (D.reads disk.new)) }
    ensures any_moment { LeavesOnly D.clock D.left_since disk.old disk.new
        (IsTornFrom (D.may_leave disk.old) at (length bytes.now)) }
    ensures room { (D.room_calls disk.old ≤ D.room_calls disk.new + 2)
        × (D.room_bytes disk.old ≤ D.room_bytes disk.new + length bytes.now) }
    ensures cause { Counts (D.faults disk.old) (D.faults disk.new) result }
{
    disk.write_at(at, bytes)?;
    disk.sync()
}
