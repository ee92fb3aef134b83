//! Lists of chain events: a chain of two edges from part 2 to part 1 of two parts, and two leaders of one part.
use crate::words::Happens::{
    Apply, Asks, Cancelled, Decide, Fine, GiveUp, Lead, Pending, Pulse, See, Take,
};
use crate::words::{
    Happens, Step, behind, ends_stale, events, puts_edges, puts_tag, rows_shown, sent, took,
};
use chain_run::Chains;
use lists::NoMemory;
use part_keys::Policy::{Cancel, Forward};
use std::alloc::Global;
use std::test::Fail;

/// Both parts get a leader of term 1, which becomes ready; the Request is taken, decided and applied: packet 3 is the Remote.
const BEGUN: [Happens; 9] = [
    Lead(2, 1, Forward, 0),
    Lead(1, 1, Forward, 0),
    Decide(2, 1, 0),
    Apply(2, 1),
    Decide(1, 1, 0),
    Apply(1, 1),
    Take(2, 1, 0),
    Decide(2, 1, 1),
    Apply(2, 1),
];

/// The Remote is taken in part 1, and the chain settles; then the Request and the Remote come once more, and the
/// leader is told to take up its chains.
const REPEATED: [Happens; 15] = [
    Take(1, 1, 3),
    Decide(1, 1, 1),
    Apply(1, 1),
    Take(2, 1, 4),
    Decide(2, 1, 2),
    Apply(2, 1),
    Fine(5),
    Take(2, 1, 0),
    Decide(2, 1, 3),
    Apply(2, 1),
    Take(1, 1, 3),
    Decide(1, 1, 2),
    Apply(1, 1),
    Take(2, 1, 7),
    Pulse(2, 1),
];

/// A leader of term 2 fences the chain before its Remote comes, and gives it up; then the Remote comes.
const OVERTAKEN: [Happens; 14] = [
    Lead(2, 2, Cancel, 2),
    Decide(2, 2, 0),
    Apply(2, 2),
    Take(2, 2, 4),
    Take(1, 1, 5),
    Decide(1, 1, 1),
    Apply(1, 1),
    Take(2, 2, 6),
    Decide(2, 2, 1),
    Apply(2, 2),
    Cancelled(7),
    Take(1, 1, 3),
    Decide(1, 1, 2),
    Apply(1, 1),
];

/// The call is given up before the Remote comes: the leader doubles the chain, and the next one takes it up and closes it.
const DOUBLED: [Happens; 14] = [
    GiveUp(2, 1),
    Decide(2, 1, 2),
    Apply(2, 1),
    Pending(4),
    Lead(2, 2, Forward, 3),
    Decide(2, 2, 0),
    Apply(2, 2),
    Take(2, 2, 5),
    Take(1, 1, 6),
    Decide(1, 1, 1),
    Apply(1, 1),
    Take(2, 2, 7),
    Decide(2, 2, 1),
    Apply(2, 2),
];

/// Two leaders of part 2 are ready at once; the later one writes a tag, and a read of it is asked for.
const BOTH: [Happens; 10] = [
    Lead(2, 1, Forward, 0),
    Decide(2, 1, 0),
    Apply(2, 1),
    Lead(2, 2, Forward, 1),
    Decide(2, 2, 0),
    Apply(2, 2),
    Take(2, 2, 0),
    Decide(2, 2, 1),
    Apply(2, 2),
    Asks,
];

/// The world behind the call that puts both edges, the events of its beginning, and these.
fn of_edges(alloc: Global, then: &[Happens]) -> Result<Chains, NoMemory> {
    behind(alloc, &events(alloc, puts_edges(alloc)?, &BEGUN, then)?)
}

/// The world behind the call that puts the tag, the events of both leaders, and these.
fn of_tag(alloc: Global, then: &[Happens]) -> Result<Chains, NoMemory> {
    behind(alloc, &events(alloc, puts_tag(alloc)?, &BOTH, then)?)
}

#[test]
fn late_repeats_give_no_step(rt: HostRuntime) -> Result<(), Fail> {
    let chains = of_edges(rt.alloc(), &REPEATED)?;
    let steps = [
        Step::Invoke,
        Step::Begin,
        Step::InHalf,
        Step::OutHalf,
        Step::Settle,
        Step::Fine,
    ];
    assert!(rt; took(&chains, &steps));
    assert!(rt; chains.decided(2).len() == 4);
    assert!(rt; chains.decided(1).len() == 3);
    assert!(rt; sent(&chains) == 9);
    Ok(())
}

#[test]
fn a_remote_behind_its_fence_is_stale(rt: HostRuntime) -> Result<(), Fail> {
    let chains = of_edges(rt.alloc(), &OVERTAKEN)?;
    let steps = [Step::Invoke, Step::Begin, Step::Cancel, Step::Cancelled];
    assert!(rt; took(&chains, &steps));
    assert!(rt; ends_stale(&chains));
    Ok(())
}

#[test]
fn the_next_leader_closes_what_was_doubled(rt: HostRuntime) -> Result<(), Fail> {
    let chains = of_edges(rt.alloc(), &DOUBLED)?;
    let steps = [
        Step::Invoke,
        Step::Begin,
        Step::OutHalf,
        Step::Pending,
        Step::InHalf,
        Step::Settle,
    ];
    assert!(rt; took(&chains, &steps));
    Ok(())
}

#[test]
fn only_the_later_leader_sees(rt: HostRuntime) -> Result<(), Fail> {
    let old = of_tag(rt.alloc(), &[See(2, 1)])?;
    assert!(rt; rows_shown(&old).is_none());
    let new = of_tag(rt.alloc(), &[See(2, 2)])?;
    assert!(rt; rows_shown(&new) == Some(1));
    Ok(())
}
