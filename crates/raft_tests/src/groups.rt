//! Groups behind lists of events. Messages have the numbers in which they were sent, from 0.
use crate::script::{Act, decided, logged, ran};
use member_change::Change;
use std::test::Fail;

/// Of three voters the first is elected by the second (0 and 1 ask, 2 is the vote, 3 and 4 its Appends) and commits its
/// no-op (5 is the answer); 6 tells the second of it.
const LED: [Act; 5] = [
    Act::Elect(1),
    Act::Take(2, 0),
    Act::Take(1, 2),
    Act::Take(2, 3),
    Act::Take(1, 5),
];

/// The leader crashes behind its commit. The second is elected by the third (7 and 8 ask, 9 is the vote); the third refuses
/// its Append (11, 12) and takes the next (13, 14), whose answer commits.
const NEXT: [Act; 8] = [
    Act::Crash(1),
    Act::Elect(2),
    Act::Take(3, 8),
    Act::Take(2, 9),
    Act::Take(3, 11),
    Act::Take(2, 12),
    Act::Take(3, 13),
    Act::Take(2, 14),
];

/// The second hears of the commit (6, 7), takes a payload (8) and so commits it (9); then the first Append comes again.
const REPEATED: [Act; 6] = [
    Act::Take(2, 6),
    Act::Take(1, 7),
    Act::Propose(1, 1),
    Act::Take(2, 8),
    Act::Take(1, 9),
    Act::Take(2, 3),
];

/// The third's Append is lost, until a moment passes (7 and 8).
const RESENT: [Act; 2] = [Act::Pulse(1), Act::Take(3, 8)];

/// The second crashes in the step in which it votes for the first, with its record kept or not, and then the third asks it
/// (2 and 3, 4 is the answer).
const KEPT: [Act; 5] = [
    Act::Elect(1),
    Act::Stop(2, 0, true),
    Act::Elect(3),
    Act::Take(2, 3),
    Act::Take(3, 4),
];

const NOT_KEPT: [Act; 5] = [
    Act::Elect(1),
    Act::Stop(2, 0, false),
    Act::Elect(3),
    Act::Take(2, 3),
    Act::Take(3, 4),
];

/// Figure 3.7 of the dissertation, among five voters. The first leads term 1 and writes 64 entries there, which nobody
/// takes; the fifth leads term 2 and writes one; the first leads term 3, and the second and the third, which refused its
/// first Append (28 and 29), take the 64 entries of term 1 (34 and 35) and say so (36 and 37): three of five have them.
const COUNTED: [Act; 28] = [
    Act::Elect(1),
    Act::Take(2, 0),
    Act::Take(3, 1),
    Act::Take(5, 3),
    Act::Take(1, 4),
    Act::Take(1, 5),
    Act::Propose(1, 63),
    Act::Crash(1),
    Act::Elect(5),
    Act::Take(1, 11),
    Act::Take(3, 13),
    Act::Take(4, 14),
    Act::Take(5, 16),
    Act::Take(5, 17),
    Act::Crash(5),
    Act::Elect(1),
    Act::Take(2, 22),
    Act::Take(3, 23),
    Act::Take(1, 26),
    Act::Take(1, 27),
    Act::Take(2, 28),
    Act::Take(3, 29),
    Act::Take(1, 32),
    Act::Take(1, 33),
    Act::Take(2, 34),
    Act::Take(3, 35),
    Act::Take(1, 36),
    Act::Take(1, 37),
];

/// The first crashes; the fifth stands twice, and the third and the fourth make it leader of term 4 (46 and 47 ask, 48 and
/// 49 are the votes). The third refuses its Append (52, 54) and takes the next (55).
const OVERWRITTEN: [Act; 10] = [
    Act::Crash(1),
    Act::Elect(5),
    Act::Elect(5),
    Act::Take(3, 46),
    Act::Take(4, 47),
    Act::Take(5, 48),
    Act::Take(5, 49),
    Act::Take(3, 52),
    Act::Take(5, 54),
    Act::Take(3, 55),
];

/// Of three voters the first leads, and all three have all that is decided, and know it (messages 0 to 10).
const READY: [Act; 11] = [
    Act::Elect(1),
    Act::Take(2, 0),
    Act::Take(1, 2),
    Act::Take(2, 3),
    Act::Take(1, 5),
    Act::Take(2, 6),
    Act::Take(1, 7),
    Act::Take(3, 4),
    Act::Take(1, 8),
    Act::Take(3, 9),
    Act::Take(1, 10),
];

/// The first asks the second to lead (11), which the third elects (13, 14).
const HANDED: [Act; 4] = [
    Act::Transfer(1, 2),
    Act::Take(2, 11),
    Act::Take(3, 13),
    Act::Take(2, 14),
];

#[test]
fn groups_behind_lists(rt: HostRuntime) -> Result<(), Fail> {
    // How many voters, two lists one behind the other, the terms of what is decided, and those of one peer's log.
    let table: [(u32, &[Act], &[Act], &[u64], u32, &[u64]); 9] = [
        (3, &LED, &NEXT, &[0, 1, 2], 3, &[0, 1, 2]),
        (3, &LED, &NEXT, &[0, 1, 2], 1, &[0, 1]),
        (3, &LED, &REPEATED, &[0, 1, 1], 2, &[0, 1, 1]),
        (3, &LED, &RESENT, &[0, 1], 3, &[0, 1]),
        (3, &KEPT, &[], &[], 3, &[0]),
        (3, &NOT_KEPT, &[], &[], 3, &[0, 1]),
        (5, &COUNTED, &[], &[], 4, &[0]),
        (5, &COUNTED, &OVERWRITTEN, &[], 3, &[0, 2, 4]),
        (3, &READY, &HANDED, &[0, 1], 2, &[0, 1, 2]),
    ];
    for (last, first, more, terms, peer, log) in table {
        let group = ran(rt.alloc(), last, first, more)?;
        assert!(rt; decided(&group, terms), "decided: {terms:?}");
        assert!(rt; logged(&group, peer, log), "the log of {peer}: {log:?}");
    }
    Ok(())
}

/// A fourth peer is placed and learns (13, 14, 15, 16). The second takes the change, which commits it (11, 17); the fourth
/// is made a voter, which two of four don't decide (18, 20, 21, 24) and three do (19, 22, 23, 25); the third is taken out,
/// which the second and the leader decide (26, 28, 29, 30), and wiped. It never comes back.
const MEMBERS: [Act; 25] = [
    Act::Place(4),
    Act::Change(1, Change::AddLearner(4)),
    Act::Take(4, 13),
    Act::Take(1, 14),
    Act::Take(4, 15),
    Act::Take(1, 16),
    Act::Take(2, 11),
    Act::Take(1, 17),
    Act::Change(1, Change::Promote(4)),
    Act::Take(2, 18),
    Act::Take(1, 20),
    Act::Take(4, 19),
    Act::Take(1, 22),
    Act::Take(2, 21),
    Act::Take(1, 24),
    Act::Take(4, 23),
    Act::Take(1, 25),
    Act::Change(1, Change::Remove(3)),
    Act::Take(2, 26),
    Act::Take(1, 28),
    Act::Take(2, 29),
    Act::Take(1, 30),
    Act::Wipe(3),
    Act::Place(3),
    Act::Elect(3),
];

#[test]
fn members_come_and_go(rt: HostRuntime) -> Result<(), Fail> {
    // How many of the acts were taken, and how many entries are decided then; a learner doesn't count.
    for (count, entries) in [(6, 2), (8, 3), (15, 3), (17, 4), (21, 4), (22, 5)] {
        let group = ran(rt.alloc(), 3, &READY, &MEMBERS[..count])?;
        assert_eq!(rt; group.decided().len(), entries, "behind {count} acts");
    }
    let group = ran(rt.alloc(), 3, &READY, &MEMBERS)?;
    assert!(rt; group.log(3).is_none());
    assert!(rt; logged(&group, 4, &[0, 1, 1, 1]));
    Ok(())
}

/// The first begins a round (11 and 12), which the second gives back (13).
const CONFIRMED: [Act; 3] = [Act::Confirm(1), Act::Take(2, 11), Act::Take(1, 13)];

/// The third makes the second leader of term 2 before (14 asks, 15 is the vote); it refuses the round (12, 18), and so does
/// the second (11, 19): the first leads on unconfirmed until it hears of that.
const DEPOSED: [Act; 8] = [
    Act::Confirm(1),
    Act::Elect(2),
    Act::Take(3, 14),
    Act::Take(2, 15),
    Act::Take(3, 12),
    Act::Take(2, 11),
    Act::Take(1, 18),
    Act::Take(1, 19),
];

#[test]
fn deposed_leaders_round_is_never_confirmed(rt: HostRuntime) -> Result<(), Fail> {
    let group = ran(rt.alloc(), 3, &READY, &CONFIRMED)?;
    assert_eq!(rt; group.confirmed(1), 1);
    for count in 0..9 {
        let group = ran(rt.alloc(), 3, &READY, &DEPOSED[..count])?;
        assert_eq!(rt; group.confirmed(1), 0, "behind {count} acts");
    }
    Ok(())
}
