//! What an Append makes of a log.
use crate::fixtures::{entries_of, have_terms, peer_of, step};
use lists::NoMemory;
use raft_core::RaftInput;
use raft_log::{Mark, RaftMsg};
use std::alloc::Global;
use std::test::Fail;

/// Whether a log of the terms 0, 1, 1 and 4 has these terms behind an Append of term 5 with entries of those, behind that
/// place; and the answer is `ok` with that index.
fn takes(
    alloc: Global,
    previous: Mark,
    sent: &[u64],
    behind: &[u64],
    answer: (bool, u64),
) -> Result<bool, NoMemory> {
    let mut core = peer_of(alloc, 3, 5, 0, &[0, 1, 1, 4])?;
    let entries = entries_of(alloc, sent)?;
    let append = RaftMsg::Append(5, previous, 0, 0, entries);
    let effects = step(alloc, &mut core, RaftInput::Msg(2, append))?;
    let Some(effects) = effects else {
        return Ok(false);
    };
    let Some(send) = effects.sends.as_slice().first() else {
        return Ok(false);
    };
    let RaftMsg::Appended(_, ok, reach, _) = &send.1 else {
        return Ok(false);
    };
    if *ok != answer.0 {
        return Ok(false);
    }
    if *reach != answer.1 {
        return Ok(false);
    }
    Ok(have_terms(core.log().entries(), behind))
}

#[test]
fn what_an_append_makes(rt: HostRuntime) -> Result<(), Fail> {
    // The previous place and its term, the terms that are sent, those behind it, and the answer: what is missing; a repeat,
    // whole, in part, and with more behind it; nothing; a conflict at each place; a gap of one and of more; another term at
    // the previous place; and from the first entry on.
    let table: [(u64, u64, &[u64], &[u64], bool, u64); 12] = [
        (4, 4, &[5], &[0, 1, 1, 4, 5], true, 5),
        (3, 1, &[4], &[0, 1, 1, 4], true, 4),
        (2, 1, &[1], &[0, 1, 1, 4], true, 3),
        (2, 1, &[1, 4, 5], &[0, 1, 1, 4, 5], true, 5),
        (3, 1, &[], &[0, 1, 1, 4], true, 3),
        (3, 1, &[5], &[0, 1, 1, 5], true, 4),
        (2, 1, &[5], &[0, 1, 5], true, 3),
        (1, 0, &[5, 5], &[0, 5, 5], true, 3),
        (5, 5, &[5], &[0, 1, 1, 4], false, 4),
        (9, 5, &[5], &[0, 1, 1, 4], false, 4),
        (4, 3, &[5], &[0, 1, 1, 4], false, 3),
        (0, 0, &[0, 1], &[0, 1, 1, 4], true, 2),
    ];
    for (index, term, sent, behind, ok, reach) in table {
        let previous = Mark { index, term };
        assert!(rt;
            takes(rt.alloc(), previous, sent, behind, (ok, reach))?,
            "behind {index} of term {term}: {sent:?}"
        );
    }
    Ok(())
}
