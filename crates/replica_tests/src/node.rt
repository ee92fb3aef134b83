//! One replica on a disk in memory.
ghost use Rattle.std.specs.Prelude.{◌<◌, IfOk};
ghost use Rattle.disk_model.specs.Memory.{reads_of, LeftOf};
ghost use Rattle.raft_log.specs.Config.{IsConfig};
ghost use Rattle.replica_core.specs.Replica.{IsSound};
ghost use Rattle.replica_core.specs.Who.{IsWho};
ghost use Rattle.replica_state.specs.State.{IsHeard};

use disk_model::{MemDisk, MemRack, Pick, Rack};
use lists::{Listed, NoMemory};
use part_keys::VidKind;
use raft_log::{Config, Peers};
use replica_core::{Effects, Replica, Who};
use replica_model::Input;
use std::alloc::Global;
use std::test::Fail;

/// This peer of part 1 of 1.
fn who(peer: u32) -> Who
    requires { 0 < peer }
    ensures { IsWho result }
{
    Who {
        part: 1,
        peer,
        node: peer,
        parts: 1,
        ids: VidKind::Num,
    }
}

/// A group of these voters.
fn first(voters: Peers) -> Config
    ensures { IsConfig result }
{
    Config {
        voters,
        learners: Peers::new(),
    }
}

/// This peer, created on that disk.
pub fn create(
    alloc: Global,
    peer: u32,
    voters: Peers,
    disk: MemDisk,
) -> Result<Replica<MemDisk>, Fail>
    requires { 0 < peer }
    ensures { IfOk result (IsSound reads_of LeftOf) }
{
    let Ok(replica) = Replica::create(alloc, who(peer), disk, Some(first(voters))) else {
        return Err(Fail::new("no replica was created"));
    };
    Ok(replica)
}

/// This peer behind a crash that left what is picked of its disk.
pub fn open(alloc: Global, peer: u32, disk: MemDisk, pick: Pick) -> Result<Replica<MemDisk>, Fail>
    requires { 0 < peer }
    ensures { IfOk result (IsSound reads_of LeftOf) }
{
    let mut picks = Listed::new(alloc);
    picks.push(pick)?;
    let mut rack = MemRack::new(alloc, picks, Listed::new(alloc));
    let Ok(disk) = rack.reopen(alloc, disk) else {
        return Err(Fail::new("the disk wasn't opened again"));
    };
    let Ok(replica) = Replica::open(alloc, who(peer), disk) else {
        return Err(Fail::new("the replica wasn't opened"));
    };
    Ok(replica)
}

/// A step: none where the replica is down.
pub fn step(
    alloc: Global,
    replica: &mut Replica<MemDisk>,
    input: Input,
) -> Result<Option<Effects>, NoMemory>
    requires sound { IsSound reads_of LeftOf replica.old }
    requires heard { IsHeard input }
    ensures { IsSound reads_of LeftOf replica.new }
{
    let room = replica.reserve(alloc, input)?;
    Ok(replica.step(room).ok())
}
