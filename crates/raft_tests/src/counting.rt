//! What commits, and what is confirmed.
use crate::fixtures::{peer_of, step};
use lists::{Bytes, NoMemory};
use raft_core::{RaftCore, RaftInput};
use raft_log::RaftMsg;
use std::alloc::Global;
use std::test::Fail;

/// Peer 1 of the voters 1 to `last`, which leads term 2 with a log of the terms 0, 1 and 2.
fn leader(alloc: Global, last: u32) -> Result<RaftCore, NoMemory> {
    let mut core = peer_of(alloc, last, 1, 0, &[0, 1])?;
    step(alloc, &mut core, RaftInput::Elect)?;
    for from in [2, 3] {
        step(
            alloc,
            &mut core,
            RaftInput::Msg(from, RaftMsg::Voted(2, true)),
        )?;
    }
    Ok(core)
}

/// The commit where two payloads stand behind that log, at 4 and 5, and the peers 2 to 5 have it up to these places.
fn commit(alloc: Global, last: u32, matched: &[u64]) -> Result<u64, NoMemory> {
    let mut core = leader(alloc, last)?;
    for _ in 0..2 {
        step(alloc, &mut core, RaftInput::Propose(Bytes::new(alloc)))?;
    }
    let mut from: u32 = 2;
    for index in matched {
        let told = RaftMsg::Appended(2, true, *index, 0);
        step(alloc, &mut core, RaftInput::Msg(from, told))?;
        from = from.wrapping_add(1);
    }
    Ok(core.view().commit)
}

#[test]
fn what_commits(rt: HostRuntime) -> Result<(), Fail> {
    // How many voters, what the others have, and the commit: place 2 is of an older term, and never commits by counting.
    let table = [
        (3, [0, 0, 0, 0], 0),
        (3, [2, 2, 0, 0], 0),
        (3, [3, 0, 0, 0], 3),
        (3, [3, 4, 0, 0], 4),
        (3, [0, 5, 0, 0], 5),
        (5, [3, 0, 0, 0], 0),
        (5, [3, 3, 0, 0], 3),
        (5, [2, 2, 2, 2], 0),
        (5, [5, 2, 2, 2], 0),
        (5, [5, 4, 3, 2], 4),
        (5, [0, 5, 0, 5], 5),
    ];
    for (last, matched, committed) in table {
        assert_eq!(rt;
            commit(rt.alloc(), last, &matched)?,
            committed,
            "{last} voters, {matched:?}"
        );
    }
    Ok(())
}

/// The confirmed round where the leader began three, and the peers 2 to 5 gave these back.
fn confirmed(alloc: Global, last: u32, rounds: &[u64]) -> Result<u64, NoMemory> {
    let mut core = leader(alloc, last)?;
    for _ in 0..3 {
        step(alloc, &mut core, RaftInput::Confirm)?;
    }
    let mut from: u32 = 2;
    for round in rounds {
        let told = RaftMsg::Appended(2, true, 0, *round);
        step(alloc, &mut core, RaftInput::Msg(from, told))?;
        from = from.wrapping_add(1);
    }
    Ok(core.confirmed())
}

#[test]
fn what_is_confirmed(rt: HostRuntime) -> Result<(), Fail> {
    // How many voters, the rounds that the others gave back, and the greatest one that more than half have, with the
    // leader itself.
    let table = [
        (1, [0, 0, 0, 0], 3),
        (3, [0, 0, 0, 0], 0),
        (3, [1, 0, 0, 0], 1),
        (3, [2, 3, 0, 0], 3),
        (5, [3, 0, 0, 0], 0),
        (5, [3, 1, 0, 0], 1),
        (5, [3, 2, 1, 1], 2),
        (5, [0, 3, 0, 3], 3),
    ];
    for (last, rounds, round) in table {
        assert_eq!(rt;
            confirmed(rt.alloc(), last, &rounds)?,
            round,
            "{last} voters, {rounds:?}"
        );
    }
    Ok(())
}
