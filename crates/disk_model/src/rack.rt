//! A rack of disks.
ghost use Rattle.std.specs.Prelude.{◌≡◌, ◌<◌, ◌≤◌, ◌+◌, List, ℕ, IfOk, IfErr, OnOk, is_some};
ghost use Rattle.std.specs.declared.option.Option.{Option};
ghost use Rattle.disk_model.specs.Rack.{KeepsAt, IsNew, IsCrashed, HasRackCause};
ghost use Rattle.disk_model.specs.declared.rack.DiskName.{DiskName};

use crate::disk::Disk;
use std::alloc::Global;

/// The name of a disk: of a replica of a part on a node. That of the table of parts has node 0, part 0 and peer 0.
#[derive(Clone, Copy)]
pub struct DiskName {
    /// The node.
    pub node: u32,
    /// The part.
    pub part: u32,
    /// The peer.
    pub peer: u32,
}

impl DiskName {
    ghost use Rattle.disk_model.specs.Kept.{is_named};

    /// Whether the two names are one.
    pub(crate) fn is_same(&self, other: &DiskName) -> bool
        ensures { result ≡ is_named self.now other.now }
    {
        self.node == other.node && self.part == other.part && self.peer == other.peer
    }
}

/// Why a disk wasn't given.
#[derive(Clone, Copy)]
pub enum RackRefused {
    /// The rack failed: its count of faults rose in this call.
    Fault,
    /// There was no memory left.
    NoMemory,
}

/// Why a disk wasn't opened again, and the disk as it was.
#[derive(Drop)]
pub struct ReopenRefused<D> {
    /// Why.
    pub why: RackRefused,
    /// The disk, handed back.
    pub disk: D,
}

/// Gives disks and takes them back. At the end of a run the rise of its two counts covers each fault of the run.
pub trait Rack {
    /// Its disks.
    type D: Disk;

    /// How many faults of its own there were.
    ghost faults: { Self → ℕ };

    /// How many faults the disks had that it took back.
    ghost back: { Self → ℕ };

    /// What each kept disk reads by its name, where the rack tells it.
    ghost kept: { Self → Option (DiskName → Option (List ℕ)) };

    /// How many disks there is room to keep.
    ghost rooms: { Self → ℕ };

    /// An empty disk without a fault, which tells what it reads exactly where the rack tells what it keeps, and room to
    /// keep one more. Refused by a fault of the rack, or for want of memory;
    /// what it keeps stays.
    fn fresh(&mut self, alloc: Global, name: DiskName) -> Result<Self::D, RackRefused>
        ensures ok { IfOk result (λ disk. IsNew (Self.D.reads disk) (Self.D.may_leave disk)) }
        ensures told { IfOk result (λ disk. is_some (Self.D.reads disk) ≡ is_some (kept self.old)) }
        ensures no_fault { IfOk result (λ disk. Self.D.faults disk ≡ 0) }
        ensures room { OnOk result (rooms self.old + 1 ≤ rooms self.new) }
        ensures no_less { rooms self.old ≤ rooms self.new }
        ensures kept { kept self.new ≡ kept self.old }
        ensures back { back self.new ≡ back self.old }
        ensures steady { OnOk result (faults self.new ≡ faults self.old) }
        ensures cause { IfErr result (HasRackCause (faults self.old) (faults self.new)) };

    /// The disk as a crash left it, whose count of faults goes on. A refusal hands it back as it was.
    fn reopen(&mut self, alloc: Global, old: Self::D) -> Result<Self::D, ReopenRefused<Self::D>>
        ensures ok { IfOk result (λ disk. IsCrashed (Self.D.reads disk) (Self.D.may_leave old) (Self.D.may_leave disk)) }
        ensures told { IfOk result (λ disk. is_some (Self.D.reads disk) ≡ is_some (Self.D.reads old)) }
        ensures counts_on { IfOk result (λ disk. Self.D.faults disk ≡ Self.D.faults old) }
        ensures handed_back { IfErr result (λ e. e.disk ≡ old) }
        ensures rooms { rooms self.old ≤ rooms self.new }
        ensures kept { kept self.new ≡ kept self.old }
        ensures back { back self.new ≡ back self.old }
        ensures steady { OnOk result (faults self.new ≡ faults self.old) }
        ensures cause { IfErr result (λ e. HasRackCause (faults self.old) (faults self.new) e.why) };

    /// Forgets a disk, but not its faults. It takes no memory.
    fn discard(&mut self, old: Self::D)
        ensures back { back self.new ≡ back self.old + Self.D.faults old }
        ensures rooms { rooms self.old ≤ rooms self.new }
        ensures kept { kept self.new ≡ kept self.old }
        ensures faults { faults self.new ≡ faults self.old };

    /// Takes a disk at the end of a run. It takes no memory.
    fn keep(&mut self, name: DiskName, disk: Self::D)
        requires { 0 < rooms self.old }
        ensures kept { KeepsAt name (Self.D.reads disk) (kept self.old) (kept self.new) }
        ensures back { back self.new ≡ back self.old + Self.D.faults disk }
        ensures rooms { rooms self.old ≤ rooms self.new + 1 }
        ensures faults { faults self.new ≡ faults self.old };
}
