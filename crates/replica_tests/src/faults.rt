//! A disk that stops at each call of one step.
use crate::node;
use disk_model::{MemDisk, Pick, Plan, Tears};
use lists::{Listed, NoMemory};
use part_keys::Policy;
use raft_log::Peers;
use replica_model::{Input, Tick};
use std::alloc::Global;
use std::test::Fail;

/// How many calls of the disk pass: 7 make the file, and 4 make the step's record durable. Then the term that is found in what was
/// synced, in what was read, and where the newest write left the byte of an open gate.
const STOPS: [(u64, u64, u64, u64); 5] = [
    (7, 0, 0, 0),
    (8, 0, 0, 0),
    (9, 0, 0, 1),
    (10, 0, 1, 1),
    (11, 1, 1, 1),
];

/// A tear of the newest write that leaves the byte of an open gate.
fn torn(alloc: Global) -> Result<Pick, NoMemory> {
    let mut tears = Tears::new(alloc);
    tears.push(Listed::from_slice(alloc, &[0xa5])?)?;
    Ok(Pick::Torn(tears))
}

/// A sole voter whose disk lets so many calls pass begins an election: whether it gives anything, and the term behind a crash.
fn stopped_after(alloc: Global, calls: u64, pick: Pick) -> Result<(bool, u64), Fail> {
    let disk = MemDisk::empty(alloc, Plan::new(Some(calls), Listed::new(alloc)));
    let mut replica = node::create(alloc, 1, Peers::new().with(1), disk)?;
    let elect = Input::Tick(Tick::Elect(Policy::Forward));
    let given = node::step(alloc, &mut replica, elect)?.is_some();
    if replica.view().up != given {
        return Err(Fail::new("up after a fault, or down without one"));
    }
    let replica = node::open(alloc, 1, replica.shut(), pick)?;
    Ok((given, replica.view().term))
}

#[test]
fn a_disk_stops_in_a_step(rt: HostRuntime) -> Result<(), Fail> {
    let alloc = rt.alloc();
    for (calls, synced, read, gate) in STOPS {
        let up = calls == 11;
        assert_eq!(rt;
            stopped_after(alloc, calls, Pick::Synced)?,
            (up, synced),
            "{calls}"
        );
        assert_eq!(rt;
            stopped_after(alloc, calls, Pick::Read)?,
            (up, read),
            "{calls}"
        );
        assert_eq!(rt;
            stopped_after(alloc, calls, torn(alloc)?)?,
            (up, gate),
            "{calls}"
        );
    }
    Ok(())
}
