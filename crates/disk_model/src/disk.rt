//! A file on a disk that may crash.
ghost use Rattle.std.specs.Prelude.{◌≡◌, ◌<◌, ◌≤◌, ◌+◌, ◌^◌, List, ℕ, length, take, drop, IfOk, IfSome, OnOk, OnErr, Some};
ghost use Rattle.std.specs.declared.option.Option.{Option};
ghost use Rattle.std.specs.Option.{option_map};
ghost use Rattle.disk_model.specs.Disk.{written_over, Torn, CutShort, Told, Follows, SameImages, Only, Elapses, Counts};

use lists::NoMemory;
use outside_io::Failed;
use std::alloc::Global;

/// A file: what a read of it gives, and what a crash may leave.
pub trait Disk {
    /// How many faults there were.
    ghost faults: { Self → ℕ };

    /// The bytes that a read gives, where the disk tells them.
    ghost reads: { Self → Option (List ℕ) };

    /// The images that a crash now may leave.
    ghost may_leave: { Self → List ℕ → Type 0 };

    /// The moment, as a number that calls move on.
    ghost clock: { Self → ℕ };

    /// The images that a crash at some moment since that one might have left, during a call or between two.
    ghost left_since: { Self → ℕ → List ℕ → Type 0 };

    /// For how many writes, cuts and syncs there is room.
    ghost room_calls: { Self → ℕ };

    /// For how many bytes of writes there is room.
    ghost room_bytes: { Self → ℕ };

    /// Makes room for so many writes, cuts and syncs, and for so many written bytes in all. No room is lost. Refused for
    /// want of memory alone; the file stays, whatever is answered.
    fn reserve(&mut self, alloc: Global, calls: usize, bytes: usize) -> Result<(), NoMemory>
        ensures ok { OnOk result ((calls ≤ room_calls self.new) × (bytes ≤ room_bytes self.new)) }
        ensures room { (room_calls self.old ≤ room_calls self.new) × (room_bytes self.old ≤ room_bytes self.new) }
        ensures reads { reads self.new ≡ reads self.old }
        ensures images { SameImages (may_leave self.old) (may_leave self.new) }
        ensures time { Elapses (clock self.old) (clock self.new) (left_since self.old) (left_since self.new) (may_leave self.new) }
        ensures faults { faults self.new ≡ faults self.old };

    /// The length of the file. Where it fails a fault is counted; the file stays, whatever is answered.
    fn len(&mut self) -> Result<u64, Failed>
        ensures ok { IfOk result (λ n. IfSome (reads self.old) (λ file. n ≡ length file)) }
        ensures room { (room_calls self.old ≤ room_calls self.new) × (room_bytes self.old ≤ room_bytes self.new) }
        ensures reads { reads self.new ≡ reads self.old }
        ensures images { SameImages (may_leave self.old) (may_leave self.new) }
        ensures time { Elapses (clock self.old) (clock self.new) (left_since self.old) (left_since self.new) (may_leave self.new) }
        ensures cause { Counts (faults self.old) (faults self.new) result };

    /// Reads from this place into the front of `into`, up to the end of the file, and answers how many bytes. Where it
    /// fails a fault is counted; the file stays, whatever is answered.
    fn read_at(&mut self, at: u64, into: &mut [u8]) -> Result<usize, Failed>
        ensures within { IfOk result (λ n. n ≤ length into.new) }
        ensures ok { IfOk result (λ n. IfSome (reads self.old)
            (λ file. take n into.new ≡ take (length into.new) (drop at file))) }
        ensures room { (room_calls self.old ≤ room_calls self.new) × (room_bytes self.old ≤ room_bytes self.new) }
        ensures reads { reads self.new ≡ reads self.old }
        ensures images { SameImages (may_leave self.old) (may_leave self.new) }
        ensures time { Elapses (clock self.old) (clock self.new) (left_since self.old) (left_since self.new) (may_leave self.new) }
        ensures cause { Counts (faults self.old) (faults self.new) result };

    /// Writes over what is there, and past the end. Until a sync a crash may leave any bytes in the range. A write
    /// that fails may have been done whole, in part or not at all.
    fn write_at(&mut self, at: u64, from: &[u8]) -> Result<(), Failed>
        requires reserved { (1 ≤ room_calls self.old) × (length from.now ≤ room_bytes self.old) }
        requires inside { IfSome (reads self.old) (λ file. at ≤ length file) }
        ensures ok { OnOk result (reads self.new ≡ option_map (written_over at from.now) (reads self.old)) }
        ensures failed { OnErr result (Told (Torn at (length from.now)) (reads self.old) (reads self.new)) }
        ensures images { Follows (Torn at (length from.now)) (may_leave self.old) (may_leave self.new) }
        ensures time { Elapses (clock self.old) (clock self.new) (left_since self.old) (left_since self.new) (may_leave self.new) }
        ensures room { (room_calls self.old ≤ room_calls self.new + 1)
            × (room_bytes self.old ≤ room_bytes self.new + length from.now) }
        ensures cause { Counts (faults self.old) (faults self.new) result };

    /// Cuts the file to a length. Until a sync a crash may leave any bytes behind that length. A cut that fails may
    /// have been done whole, in part or not at all.
    fn cut(&mut self, len: u64) -> Result<(), Failed>
        requires reserved { 1 ≤ room_calls self.old }
        requires inside { IfSome (reads self.old) (λ file. len ≤ length file) }
        ensures ok { OnOk result (reads self.new ≡ option_map (take len) (reads self.old)) }
        ensures failed { OnErr result (Told (CutShort len) (reads self.old) (reads self.new)) }
        ensures images { Follows (CutShort len) (may_leave self.old) (may_leave self.new) }
        ensures time { Elapses (clock self.old) (clock self.new) (left_since self.old) (left_since self.new) (may_leave self.new) }
        ensures room { (room_calls self.old ≤ room_calls self.new + 1) × (room_bytes self.old ≤ room_bytes self.new) }
        ensures cause { Counts (faults self.old) (faults self.new) result };

    /// After it, a crash leaves what a read gives. A sync that fails leaves the images as they were.
    fn sync(&mut self) -> Result<(), Failed>
        requires reserved { 1 ≤ room_calls self.old }
        ensures ok { OnOk result (IfSome (reads self.old) (λ file. Only file (may_leave self.new))) }
        ensures failed { OnErr result (SameImages (may_leave self.old) (may_leave self.new)) }
        ensures no_other { (c : List ℕ) → may_leave self.new c → may_leave self.old c }
        ensures reads { reads self.new ≡ reads self.old }
        ensures time { Elapses (clock self.old) (clock self.new) (left_since self.old) (left_since self.new) (may_leave self.new) }
        ensures room { (room_calls self.old ≤ room_calls self.new + 1) × (room_bytes self.old ≤ room_bytes self.new) }
        ensures cause { Counts (faults self.old) (faults self.new) result };

    /// What a disk reads is one of its images.
    ghost is_image: { (disk : Self) (file : List ℕ) → reads disk ≡ Some file → may_leave disk file };

    /// A length fits its number.
    ghost fits: { (disk : Self) (file : List ℕ) → reads disk ≡ Some file → length file < 2 ^ 64 };

    /// This moment is one of those since an earlier one.
    ghost counts_now: { (disk : Self) (t : ℕ) (c : List ℕ) → t ≤ clock disk → may_leave disk c → left_since disk t c };

    /// Since this moment there is no other.
    ghost only_now: { (disk : Self) (c : List ℕ) → left_since disk (clock disk) c → may_leave disk c };
}
