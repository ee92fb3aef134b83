//! Who wins an election, and who grants a vote.
use crate::fixtures::{peer_of, step};
use lists::NoMemory;
use raft_core::{RaftInput, leads};
use raft_log::{Mark, RaftMsg};
use std::alloc::Global;
use std::test::Fail;

/// Whether peer 1 of the voters 1 to `last` leads term 1 with these votes beside its own; 0 is none.
fn wins(alloc: Global, last: u32, votes: &[u32]) -> Result<bool, NoMemory> {
    let mut core = peer_of(alloc, last, 0, 0, &[0])?;
    step(alloc, &mut core, RaftInput::Elect)?;
    for vote in votes {
        step(
            alloc,
            &mut core,
            RaftInput::Msg(*vote, RaftMsg::Voted(1, true)),
        )?;
    }
    Ok(leads(core.view().role))
}

#[test]
fn who_wins(rt: HostRuntime) -> Result<(), Fail> {
    // How many voters, whose votes came, and whether that is more than half; who isn't a voter, or comes twice, counts not.
    let table = [
        (1, [0, 0, 0], true),
        (2, [0, 0, 0], false),
        (2, [2, 0, 0], true),
        (3, [0, 0, 0], false),
        (3, [4, 0, 0], false),
        (3, [2, 0, 0], true),
        (3, [3, 0, 0], true),
        (5, [2, 0, 0], false),
        (5, [2, 2, 2], false),
        (5, [2, 6, 7], false),
        (5, [2, 3, 0], true),
        (5, [4, 6, 5], true),
    ];
    for (last, votes, won) in table {
        assert_eq!(rt;
            wins(rt.alloc(), last, &votes)?,
            won,
            "{last} voters, votes of {votes:?}"
        );
    }
    Ok(())
}

/// Whether a peer in term 5, which voted for that one, with a log of the terms 0, 2 and 3, grants 2 its vote.
fn grants(alloc: Global, vote: u32, last: Mark) -> Result<bool, NoMemory> {
    let mut core = peer_of(alloc, 3, 5, vote, &[0, 2, 3])?;
    let effects = step(alloc, &mut core, RaftInput::Msg(2, RaftMsg::Vote(5, last)))?;
    let Some(effects) = effects else {
        return Ok(false);
    };
    let Some(send) = effects.sends.as_slice().first() else {
        return Ok(false);
    };
    match &send.1 {
        RaftMsg::Voted(_, granted) => Ok(*granted),
        _ => Ok(false),
    }
}

#[test]
fn who_grants(rt: HostRuntime) -> Result<(), Fail> {
    // Whom the peer voted for, the candidate's last index and term, and whether it gets the vote: a log as long, a shorter
    // one, a longer one, a shorter one of a later term, a longer one of an older term; and where the vote is given already.
    let table = [
        (0, 3, 3, true),
        (0, 2, 3, false),
        (0, 4, 3, true),
        (0, 1, 4, true),
        (0, 9, 2, false),
        (2, 3, 3, true),
        (3, 9, 9, false),
    ];
    for (vote, index, term, granted) in table {
        assert_eq!(rt;
            grants(rt.alloc(), vote, Mark { index, term })?,
            granted,
            "voted for {vote}, asked with {index} of term {term}"
        );
    }
    Ok(())
}
