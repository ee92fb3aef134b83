//! A disk in memory.
ghost use Rattle.std.specs.Prelude.{◌≡◌, ◌<◌, ◌≤◌, ◌+◌, ◌^◌, ◌∷◌, [], List, ℕ, length, take, drop, vec_len, vec_capacity, IfOk, IfErr, IfSome, OnOk, OnErr, Some, is_ok};
ghost use Rattle.std.specs.Option.{option_map};
ghost use Rattle.disk_model.specs.Disk.{written_over, Torn, CutShort, Told, Follows, SameImages, Only, Elapses, Counts};
ghost use Rattle.disk_model.specs.Replay.{history, moved, reads_after, synced_after, Left};

use crate::call::{Call, Made};
use crate::disk::Disk;
use crate::overwriting::{catch_up, note, overwrite};
use crate::pick::Pick;
use crate::plan::Plan;
use crate::tearing::torn;
use lists::{Bytes, Listed, NoMemory};
use outside_io::{Failed, Faults};
use std::alloc::Global;

/// A file in memory. It keeps its writes, cuts and syncs with their bytes, so that each moment's images can be told.
#[derive(Drop)]
pub struct MemDisk {
    first: Bytes,
    bytes: Vec<u8>,
    synced: Vec<u8>,
    // Up to here what was synced is what is read.
    same: usize,
    calls: Vec<Made>,
    stored: Vec<u8>,
    pub(crate) plan: Plan,
    pub(crate) faults: Faults,
    ghost whole: { moved calls.items ≡ length stored.items },
    ghost small: { length bytes.items < 2 ^ 64 },
    ghost replays: { bytes.items ≡ reads_after first (history calls.items stored.items) },
    ghost syncs: { synced.items ≡ synced_after first (history calls.items stored.items) },
    ghost within: { same ≤ length bytes.items },
    ghost front: { take same synced.items ≡ take same bytes.items },
    ghost room: { vec_len bytes ≤ vec_capacity synced },
}

impl MemDisk {
    ghost use Rattle.disk_model.specs.Memory.{calls_of, first_of, file_of, plan_of, faults_of, steps_of, picked};
    ghost use Rattle.disk_model.specs.Plan.{without_fuse};

    /// A file of these bytes, all of them on the disk, whose next calls fail as planned. Refused for want of memory
    /// alone.
    pub fn new(alloc: Global, first: Bytes, plan: Plan) -> Result<MemDisk, NoMemory>
        ensures reads { IfOk result (λ disk. file_of disk ≡ first) }
        ensures first { IfOk result (λ disk. first_of disk ≡ first) }
        ensures steps { IfOk result (λ disk. steps_of disk ≡ []) }
        ensures plan { IfOk result (λ disk. plan_of disk ≡ plan) }
        ensures faults { IfOk result (λ disk. faults_of disk ≡ 0) }
    {
        Ok(MemDisk {
            bytes: Vec::from_slice(alloc, first.as_slice())?,
            synced: Vec::from_slice(alloc, first.as_slice())?,
            same: first.len(),
            first,
            calls: Vec::new(alloc),
            stored: Vec::new(alloc),
            plan,
            faults: Faults::new(),
        })
    }

    /// An empty file, whose next calls fail as planned.
    pub fn empty(alloc: Global, plan: Plan) -> MemDisk
        ensures reads { file_of result ≡ [] }
        ensures first { first_of result ≡ [] }
        ensures steps { steps_of result ≡ [] }
        ensures plan { plan_of result ≡ plan }
        ensures faults { faults_of result ≡ 0 }
    {
        MemDisk {
            first: Listed::new(alloc),
            bytes: Vec::new(alloc),
            synced: Vec::new(alloc),
            same: 0,
            calls: Vec::new(alloc),
            stored: Vec::new(alloc),
            plan,
            faults: Faults::new(),
        }
    }

    /// The disk after a crash that left what was picked. It has no fuse, and the numbers of its calls go on, as its
    /// faults do. For want of memory it comes back as it was.
    pub(crate) fn reopened(self, alloc: Global, pick: &Pick) -> Result<MemDisk, MemDisk>
        ensures image { IfOk result (λ disk. Left (first_of self) (steps_of self) (first_of disk)) }
        ensures picked { IfOk result (λ disk. first_of disk ≡ picked pick.now self) }
        ensures reads { IfOk result (λ disk. file_of disk ≡ first_of disk) }
        ensures steps { IfOk result (λ disk. steps_of disk ≡ []) }
        ensures plan { IfOk result (λ disk. plan_of disk ≡ without_fuse (plan_of self)) }
        ensures faults { IfOk result (λ disk. faults_of disk ≡ faults_of self) }
        ensures err { IfErr result (λ disk. disk ≡ self) }
    {
        let Ok(first) = self.image(alloc, pick) else {
            return Err(self);
        };
        let Ok(bytes) = Vec::from_slice(alloc, first.as_slice()) else {
            return Err(self);
        };
        let Ok(synced) = Vec::from_slice(alloc, first.as_slice()) else {
            return Err(self);
        };
        Ok(MemDisk {
            same: first.len(),
            first,
            bytes,
            synced,
            calls: Vec::new(alloc),
            stored: Vec::new(alloc),
            plan: self.plan.reopened(),
            faults: self.faults,
        })
    }

    /// What a read gives.
    pub fn bytes(&self) -> &[u8]
        ensures { result.now ≡ file_of self.now }
    {
        self.bytes.as_slice()
    }

    /// What was synced.
    pub fn synced(&self) -> &[u8]
        ensures { result.now ≡ synced_after (first_of self.now) (steps_of self.now) }
    {
        self.synced.as_slice()
    }

    // The image that was picked. Refused for want of memory alone.
    fn image(&self, alloc: Global, pick: &Pick) -> Result<Bytes, NoMemory>
        ensures { IfOk result (λ image. image ≡ picked pick.now self.now) }
    {
        match pick {
            Pick::Synced => Listed::from_slice(alloc, self.synced()),
            Pick::Read => Listed::from_slice(alloc, self.bytes()),
            Pick::Torn(tears) => {
                let image = torn(alloc, self.synced(), self.calls(), tears.as_slice())?;
                Ok(Listed::from_vec(image))
            }
        }
    }

    /// The writes, cuts and syncs that were made, the oldest first.
    pub fn calls(&self) -> &[Made]
        ensures { result.now ≡ calls_of self.now }
    {
        self.calls.as_slice()
    }
}

impl Disk for MemDisk {
    ghost use Rattle.disk_model.specs.Memory.{first_of, plan_of, faults_of, steps_of, reads_of, LeftOf, clock_of, SinceOf, calls_room, bytes_room};
    ghost use Rattle.disk_model.specs.Plan.{passes, called};
    ghost use Rattle.disk_model.specs.declared.call.Call.TheVariants.{Write, Cut, Sync};
    ghost use Rattle.disk_model.specs.ReplayLaws.{shown_is_image, shown_fits, counts_left, only_left};

    ghost faults = { faults_of };

    ghost reads = { reads_of };

    ghost may_leave = { LeftOf };

    ghost clock = { clock_of };

    ghost left_since = { SinceOf };

    ghost room_calls = { calls_room };

    ghost room_bytes = { bytes_room };

    ghost is_image = { λ m file same. shown_is_image m.first m.bytes.items file (steps_of m) m.replays same };

    ghost fits = { λ m file same. shown_fits m.bytes.items file m.small same };

    ghost counts_now = { λ m t c le left. counts_left m.first t (steps_of m) c left };

    ghost only_now = { λ m c left. only_left m.first (steps_of m) c left };

    fn reserve(&mut self, _alloc: Global, calls: usize, bytes: usize) -> Result<(), NoMemory>
        ensures ok { OnOk result ((calls ≤ calls_room self.new) × (bytes ≤ bytes_room self.new)) }
        ensures room { (calls_room self.old ≤ calls_room self.new) × (bytes_room self.old ≤ bytes_room self.new) }
        ensures reads { reads_of self.new ≡ reads_of self.old }
        ensures images { SameImages (LeftOf self.old) (LeftOf self.new) }
        ensures time { Elapses (clock_of self.old) (clock_of self.new) (SinceOf self.old) (SinceOf self.new) (LeftOf self.new) }
        ensures faults { faults_of self.new ≡ faults_of self.old }

        // Beside what each disk promises.
        ensures noted { steps_of self.new ≡ steps_of self.old }
        ensures first { first_of self.new ≡ first_of self.old }
        ensures plan { plan_of self.new ≡ plan_of self.old }
    {
        let Some(most) = self.bytes.len().checked_add(bytes) else {
            return Err(NoMemory);
        };
        self.synced.reserve(most.saturating_sub(self.synced.len()))?;
        self.calls.reserve(calls)?;
        self.stored.reserve(bytes)?;
        self.bytes.reserve(bytes)?;
        Ok(())
    }

    fn len(&mut self) -> Result<u64, Failed>
        ensures ok { IfOk result (λ n. IfSome (reads_of self.old) (λ file. n ≡ length file)) }
        ensures room { (calls_room self.old ≤ calls_room self.new) × (bytes_room self.old ≤ bytes_room self.new) }
        ensures reads { reads_of self.new ≡ reads_of self.old }
        ensures images { SameImages (LeftOf self.old) (LeftOf self.new) }
        ensures time { Elapses (clock_of self.old) (clock_of self.new) (SinceOf self.old) (SinceOf self.new) (LeftOf self.new) }
        ensures cause { Counts (faults_of self.old) (faults_of self.new) result }

        // Beside what each disk promises.
        ensures noted { steps_of self.new ≡ steps_of self.old }
        ensures first { first_of self.new ≡ first_of self.old }
        ensures exact { is_ok result ≡ passes (plan_of self.old) }
        ensures called { plan_of self.new ≡ called (plan_of self.old) }
    {
        if !self.plan.next() {
            self.faults.rise();
            return Err(Failed);
        }
        Ok(self.bytes.len() as u64)
    }

    fn read_at(&mut self, at: u64, into: &mut [u8]) -> Result<usize, Failed>
        ensures within { IfOk result (λ n. n ≤ length into.new) }
        ensures ok { IfOk result (λ n. IfSome (reads_of self.old)
            (λ file. take n into.new ≡ take (length into.new) (drop at file))) }
        ensures room { (calls_room self.old ≤ calls_room self.new) × (bytes_room self.old ≤ bytes_room self.new) }
        ensures reads { reads_of self.new ≡ reads_of self.old }
        ensures images { SameImages (LeftOf self.old) (LeftOf self.new) }
        ensures time { Elapses (clock_of self.old) (clock_of self.new) (SinceOf self.old) (SinceOf self.new) (LeftOf self.new) }
        ensures cause { Counts (faults_of self.old) (faults_of self.new) result }

        // Beside what each disk promises.
        ensures noted { steps_of self.new ≡ steps_of self.old }
        ensures first { first_of self.new ≡ first_of self.old }
        ensures exact { is_ok result ≡ passes (plan_of self.old) }
        ensures called { plan_of self.new ≡ called (plan_of self.old) }
    {
        if !self.plan.next() {
            self.faults.rise();
            return Err(Failed);
        }
        let from = self.bytes.len().min(at as usize);
        let (_, rest) = self.bytes.as_slice().split_at(from);
        let read = rest.len().min(into.len());
        into[..read].copy_from_slice(&rest[..read]);
        Ok(read)
    }

    fn write_at(&mut self, at: u64, from: &[u8]) -> Result<(), Failed>
        requires reserved { (1 ≤ calls_room self.old) × (length from.now ≤ bytes_room self.old) }
        requires inside { IfSome (reads_of self.old) (λ file. at ≤ length file) }
        ensures ok { OnOk result (reads_of self.new ≡ option_map (written_over at from.now) (reads_of self.old)) }
        ensures failed { OnErr result (Told (Torn at (length from.now)) (reads_of self.old) (reads_of self.new)) }
        ensures images { Follows (Torn at (length from.now)) (LeftOf self.old) (LeftOf self.new) }
        ensures time { Elapses (clock_of self.old) (clock_of self.new) (SinceOf self.old) (SinceOf self.new) (LeftOf self.new) }
        ensures room { (calls_room self.old ≤ calls_room self.new + 1)
            × (bytes_room self.old ≤ bytes_room self.new + length from.now) }
        ensures cause { Counts (faults_of self.old) (faults_of self.new) result }

        // Beside what each disk promises.
        ensures kept { OnErr result (reads_of self.new ≡ reads_of self.old) }
        ensures noted { steps_of self.new ≡ (record { call = Write at (length from.now); ok = is_ok result }, from.now) ∷ steps_of self.old }
        ensures first { first_of self.new ≡ first_of self.old }
        ensures exact { is_ok result ≡ passes (plan_of self.old) }
        ensures called { plan_of self.new ≡ called (plan_of self.old) }
    {
        let ok = self.plan.next();
        let made = Made {
            call: Call::Write(at, from.len()),
            ok,
        };
        note(&mut self.calls, &mut self.stored, made, from);
        if !ok {
            self.faults.rise();
            return Err(Failed);
        }
        self.same = self.same.min(at as usize);
        overwrite(&mut self.bytes, at as usize, from);
        Ok(())
    }

    fn cut(&mut self, len: u64) -> Result<(), Failed>
        requires reserved { 1 ≤ calls_room self.old }
        requires inside { IfSome (reads_of self.old) (λ file. len ≤ length file) }
        ensures ok { OnOk result (reads_of self.new ≡ option_map (take len) (reads_of self.old)) }
        ensures failed { OnErr result (Told (CutShort len) (reads_of self.old) (reads_of self.new)) }
        ensures images { Follows (CutShort len) (LeftOf self.old) (LeftOf self.new) }
        ensures time { Elapses (clock_of self.old) (clock_of self.new) (SinceOf self.old) (SinceOf self.new) (LeftOf self.new) }
        ensures room { (calls_room self.old ≤ calls_room self.new + 1) × (bytes_room self.old ≤ bytes_room self.new) }
        ensures cause { Counts (faults_of self.old) (faults_of self.new) result }

        // Beside what each disk promises.
        ensures kept { OnErr result (reads_of self.new ≡ reads_of self.old) }
        ensures noted { steps_of self.new ≡ (record { call = Cut len; ok = is_ok result }, []) ∷ steps_of self.old }
        ensures first { first_of self.new ≡ first_of self.old }
        ensures exact { is_ok result ≡ passes (plan_of self.old) }
        ensures called { plan_of self.new ≡ called (plan_of self.old) }
    {
        let ok = self.plan.next();
        let made = Made {
            call: Call::Cut(len),
            ok,
        };
        note(&mut self.calls, &mut self.stored, made, &[]);
        if !ok {
            self.faults.rise();
            return Err(Failed);
        }
        self.same = self.same.min(len as usize);
        self.bytes.truncate(len as usize);
        Ok(())
    }

    fn sync(&mut self) -> Result<(), Failed>
        requires reserved { 1 ≤ calls_room self.old }
        ensures ok { OnOk result (IfSome (reads_of self.old) (λ file. Only file (LeftOf self.new))) }
        ensures failed { OnErr result (SameImages (LeftOf self.old) (LeftOf self.new)) }
        ensures no_other { (c : List ℕ) → LeftOf self.new c → LeftOf self.old c }
        ensures reads { reads_of self.new ≡ reads_of self.old }
        ensures time { Elapses (clock_of self.old) (clock_of self.new) (SinceOf self.old) (SinceOf self.new) (LeftOf self.new) }
        ensures room { (calls_room self.old ≤ calls_room self.new + 1) × (bytes_room self.old ≤ bytes_room self.new) }
        ensures cause { Counts (faults_of self.old) (faults_of self.new) result }

        // Beside what each disk promises.
        ensures noted { steps_of self.new ≡ (record { call = Sync; ok = is_ok result }, []) ∷ steps_of self.old }
        ensures first { first_of self.new ≡ first_of self.old }
        ensures exact { is_ok result ≡ passes (plan_of self.old) }
        ensures called { plan_of self.new ≡ called (plan_of self.old) }
    {
        let ok = self.plan.next();
        let made = Made {
            call: Call::Sync,
            ok,
        };
        note(&mut self.calls, &mut self.stored, made, &[]);
        if !ok {
            self.faults.rise();
            return Err(Failed);
        }
        catch_up(&mut self.synced, &self.bytes, self.same);
        self.same = self.bytes.len();
        Ok(())
    }
}
