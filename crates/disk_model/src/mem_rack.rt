//! A rack of disks in memory.
ghost use Rattle.std.specs.Prelude.{true, false, None, is_some, IsErrOf, ◌≡◌, ◌<◌, ◌≤◌, ◌+◌, ◌-◌, ◌≢◌, ℕ, List, vec_len, vec_capacity, IfOk, IfErr, OnOk, OnErr, Some};

use crate::disk::Disk;
use crate::mem_disk::MemDisk;
use crate::pick::Pick;
use crate::plan::Plan;
use crate::planned::take_plan;
use crate::rack::{DiskName, Rack, RackRefused, ReopenRefused};
use lists::{Listed, NoMemory};
use outside_io::Faults;
use std::alloc::Global;

/// A disk that was kept, by its name.
#[derive(Drop)]
pub struct Kept {
    /// The name.
    pub name: DiskName,
    /// The disk.
    pub disk: MemDisk,
}

/// Which calls of a disk fail, by its name.
#[derive(Drop)]
pub struct Planned {
    /// The name.
    pub name: DiskName,
    /// The plan.
    pub plan: Plan,
}

/// Disks in memory. A list of picks chooses what each crash leaves, one a `reopen` that opens its disk again; where it
/// is at its end, what was synced. The first `fresh` of a name gives its disk the plan that was set for the name, and
/// takes the plan out. Its own calls `fresh` and `reopen` fail as planned; one that is refused for want of memory
/// doesn't count as a call.
#[derive(Drop)]
pub struct MemRack {
    picks: Listed<Pick>,
    reopened: usize,
    planned: Vec<Planned>,
    plan: Plan,
    faults: Faults,
    back: Faults,
    kept: Vec<Kept>,
    rooms: usize,
    ghost room: { vec_len kept + rooms ≤ vec_capacity kept },
}

impl MemRack {
    ghost use Rattle.std.specs.Prelude.{[], ◌∷◌, ◌++◌};
    ghost use Rattle.disk_model.specs.Kept.{kept_at, rack_faults, rack_back, kept_in, rooms_of, rack_plan, planned_in, picks_of, used_picks, SamePicks, SamePlans};
    ghost use Rattle.disk_model.specs.Plan.{plan_with};
    ghost use Rattle.disk_model.specs.declared.rack.DiskName.{DiskName};

    /// A rack that keeps nothing. Its `fresh` and `reopen` fail at the calls whose numbers are in `failing`, counted
    /// together from 0.
    pub fn new(alloc: Global, picks: Listed<Pick>, failing: Listed<u64>) -> MemRack
        ensures faults { rack_faults result ≡ 0 }
        ensures back { rack_back result ≡ 0 }
        ensures kept { kept_in result ≡ [] }
        ensures picks { (picks_of result ≡ picks) × (used_picks result ≡ 0) }
        ensures plan { rack_plan result ≡ plan_with None failing }
        ensures planned { planned_in result ≡ [] }
    {
        MemRack {
            picks,
            reopened: 0,
            planned: Vec::new(alloc),
            plan: Plan::new(None, failing),
            faults: Faults::new(),
            back: Faults::new(),
            kept: Vec::new(alloc),
            rooms: 0,
        }
    }

    /// Sets what the first disk of this name does. Refused for want of memory alone, and then all is as it was.
    pub fn set(&mut self, name: DiskName, plan: Plan) -> Result<(), NoMemory>
        ensures ok { OnOk result (SamePicks self.old self.new) }
        ensures planned { OnOk result
            (planned_in self.new ≡ planned_in self.old ++ record { name = name; plan = plan } ∷ []) }
        ensures err { OnErr result (SamePlans self.old self.new) }
        ensures kept { kept_in self.new ≡ kept_in self.old }
        ensures rooms { rooms_of self.new ≡ rooms_of self.old }
        ensures back { rack_back self.new ≡ rack_back self.old }
        ensures faults { rack_faults self.new ≡ rack_faults self.old }
    {
        self.planned.push(Planned { name, plan })?;
        Ok(())
    }

    /// The disks that were kept; of several by one name the last one counts.
    pub fn kept(&self) -> &[Kept]
        ensures { result.now ≡ kept_in self.now }
    {
        self.kept.as_slice()
    }

    /// Adds the faults of a disk that it doesn't keep.
    pub(crate) fn take_back(&mut self, disk: &Faults)
        ensures back { rack_back self.new ≡ rack_back self.old + disk.now.count }
        ensures rest { self.new ≡ record self.old { back = self.new.back } }
    {
        self.back.add(disk);
    }

    /// Keeps no disk of this name any more.
    pub(crate) fn forget(&mut self, name: DiskName)
        ensures here { kept_at (kept_in self.new) name ≡ None }
        ensures elsewhere { (other : DiskName) → other ≢ name → kept_at (kept_in self.new) other ≡ kept_at (kept_in self.old) other }
        ensures rooms { rooms_of self.new ≡ rooms_of self.old }
        ensures back { rack_back self.new ≡ rack_back self.old }
        ensures faults { rack_faults self.new ≡ rack_faults self.old }
        ensures plans { SamePlans self.old self.new }
    {
        self.kept.retain(|kept| !kept.name.is_same(&name));
    }
}

impl Rack for MemRack {
    ghost use Rattle.std.specs.Prelude.{[], ◌∷◌, ◌++◌, ◌↔◌, ◌^◌, min};
    ghost use Rattle.disk_model.specs.Kept.{rack_faults, rack_back, kept_in, kept_files, rooms_of, rack_plan, planned_in, picks_of, used_picks, pick_of, plan_for, without_plan, SamePlans, HasCounted};
    ghost use Rattle.disk_model.specs.Plan.{passes, called, without_fuse};
    ghost use Rattle.disk_model.specs.Rack.{KeepsAt, IsNew, IsCrashed, HasRackCause};
    ghost use Rattle.disk_model.specs.declared.rack.RackRefused.TheVariants.{Fault};
    ghost use Rattle.disk_model.specs.Memory.{faults_of, plan_of, file_of, reads_of, LeftOf, picked};

    type D = MemDisk;

    ghost faults = { rack_faults };

    ghost back = { rack_back };

    ghost kept = { kept_files };

    ghost rooms = { rooms_of };

    fn fresh(&mut self, alloc: Global, name: DiskName) -> Result<MemDisk, RackRefused>
        ensures ok { IfOk result (λ disk. IsNew (reads_of disk) (LeftOf disk)) }
        ensures told { IfOk result (λ disk. is_some (reads_of disk) ≡ is_some (kept_files self.old)) }
        ensures no_fault { IfOk result (λ disk. faults_of disk ≡ 0) }
        ensures room { OnOk result (rooms_of self.old + 1 ≤ rooms_of self.new) }
        ensures no_less { rooms_of self.old ≤ rooms_of self.new }
        ensures kept { kept_files self.new ≡ kept_files self.old }
        ensures back { rack_back self.new ≡ rack_back self.old }
        ensures steady { OnOk result (rack_faults self.new ≡ rack_faults self.old) }
        ensures cause { IfErr result (HasRackCause (rack_faults self.old) (rack_faults self.new)) }

        // Beside what each rack promises.
        ensures passed { OnOk result (passes (rack_plan self.old) ≡ true) }
        ensures failed { IsErrOf result Fault ↔ (passes (rack_plan self.old) ≡ false) }
        ensures called { OnOk result (rack_plan self.new ≡ called (rack_plan self.old)) }
        ensures refused { IfErr result (HasCounted (rack_plan self.old) (rack_plan self.new)) }
        ensures plan { IfOk result (λ disk. plan_of disk ≡ plan_for (planned_in self.old) name) }
        ensures taken { OnOk result (planned_in self.new ≡ without_plan (planned_in self.old) name) }
        ensures not_taken { OnErr result (planned_in self.new ≡ planned_in self.old) }
        ensures picks { (picks_of self.new ≡ picks_of self.old) × (used_picks self.new ≡ used_picks self.old) }
    {
        if !self.plan.passes() {
            self.plan.count();
            self.faults.rise();
            return Err(RackRefused::Fault);
        }
        let Some(rooms) = self.rooms.checked_add(1) else {
            return Err(RackRefused::NoMemory);
        };
        let Ok(()) = self.kept.reserve(rooms) else {
            return Err(RackRefused::NoMemory);
        };
        self.plan.count();
        self.rooms = rooms;
        let plan = take_plan(alloc, &mut self.planned, name);
        Ok(MemDisk::empty(alloc, plan))
    }

    fn reopen(&mut self, alloc: Global, old: MemDisk) -> Result<MemDisk, ReopenRefused<MemDisk>>
        ensures ok { IfOk result (λ disk. IsCrashed (reads_of disk) (LeftOf old) (LeftOf disk)) }
        ensures told { IfOk result (λ disk. is_some (reads_of disk) ≡ is_some (reads_of old)) }
        ensures counts_on { IfOk result (λ disk. faults_of disk ≡ faults_of old) }
        ensures handed_back { IfErr result (λ e. e.disk ≡ old) }
        ensures rooms { rooms_of self.old ≤ rooms_of self.new }
        ensures kept { kept_files self.new ≡ kept_files self.old }
        ensures back { rack_back self.new ≡ rack_back self.old }
        ensures steady { OnOk result (rack_faults self.new ≡ rack_faults self.old) }
        ensures cause { IfErr result (λ e. HasRackCause (rack_faults self.old) (rack_faults self.new) e.why) }

        // Beside what each rack promises.
        ensures passed { OnOk result (passes (rack_plan self.old) ≡ true) }
        ensures failed { IfErr result (λ e. (e.why ≡ Fault) ↔ (passes (rack_plan self.old) ≡ false)) }
        ensures called { OnOk result (rack_plan self.new ≡ called (rack_plan self.old)) }
        ensures refused { IfErr result (λ e. HasCounted (rack_plan self.old) (rack_plan self.new) e.why) }
        ensures picked { IfOk result (λ disk. file_of disk ≡ picked (pick_of self.old) old) }
        ensures next { OnOk result (used_picks self.new ≡ min (used_picks self.old + 1) (2 ^ 64 - 1)) }
        ensures not_used { OnErr result (used_picks self.new ≡ used_picks self.old) }
        ensures picks { (picks_of self.new ≡ picks_of self.old) × (planned_in self.new ≡ planned_in self.old) }
        ensures plan { IfOk result (λ disk. plan_of disk ≡ without_fuse (plan_of old)) }
    {
        if !self.plan.passes() {
            self.plan.count();
            self.faults.rise();
            return Err(ReopenRefused {
                why: RackRefused::Fault,
                disk: old,
            });
        }
        let at = self.reopened;
        let pick = self.picks.as_slice().get(at).unwrap_or(&Pick::Synced);
        match old.reopened(alloc, pick) {
            Ok(disk) => {
                self.plan.count();
                self.reopened = at.saturating_add(1);
                Ok(disk)
            }
            Err(old) => Err(ReopenRefused {
                why: RackRefused::NoMemory,
                disk: old,
            }),
        }
    }

    fn discard(&mut self, old: MemDisk)
        ensures back { rack_back self.new ≡ rack_back self.old + faults_of old }
        ensures rooms { rooms_of self.old ≤ rooms_of self.new }
        ensures kept { kept_files self.new ≡ kept_files self.old }
        ensures faults { rack_faults self.new ≡ rack_faults self.old }

        // Beside what each rack promises.
        ensures plans { SamePlans self.old self.new }
    {
        self.back.add(&old.faults);
    }

    fn keep(&mut self, name: DiskName, disk: MemDisk)
        requires { 0 < rooms_of self.old }
        ensures kept { KeepsAt name (reads_of disk) (kept_files self.old) (kept_files self.new) }
        ensures back { rack_back self.new ≡ rack_back self.old + faults_of disk }
        ensures rooms { rooms_of self.old ≤ rooms_of self.new + 1 }
        ensures faults { rack_faults self.new ≡ rack_faults self.old }

        // Beside what each rack promises.
        ensures plans { SamePlans self.old self.new }
        ensures disks { kept_in self.new ≡ kept_in self.old ++ record { name = name; disk = disk } ∷ [] }
    {
        self.back.add(&disk.faults);
        self.rooms -= 1;
        match self.kept.push(Kept { name, disk }) {
            Ok(()) => {}
            Err(_) => unreachable!(),
        }
    }
}
