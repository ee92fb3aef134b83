//! The rules, one line a case: the row before, what comes, what is answered, the row after.
use crate::cases::{CALL, Row, Says, V, entry_said, message_said, record, row_in, table_with};
use chain_leader::{ChainTable, give_up, on_fence, on_primed, on_remote, resume};
use lists::NoMemory;
use part_keys::Policy;
use std::alloc::Global;
use std::test::Fail;

/// What comes to the leader, of the chain.
#[derive(Clone, Copy)]
enum Comes {
    /// Its in-halves are written.
    Done,
    /// A Fence found them written.
    Wrote,
    /// A Fence found them not written.
    Missed,
    /// Its call is given up.
    GivenUp,
    /// It is taken up, by a leader of that policy.
    Forward,
    Cancel,
    /// It is taken up, and its record is double.
    DoubleForward,
    DoubleCancel,
    /// It begins.
    Begins,
    /// Its record is removed.
    Removed,
}

const CASES: [(Row, Comes, Says, Row); 56] = [
    (Row::None, Comes::Done, Says::Nothing, Row::None),
    (Row::None, Comes::Wrote, Says::Nothing, Row::None),
    (Row::None, Comes::Missed, Says::Nothing, Row::None),
    (Row::None, Comes::GivenUp, Says::Nothing, Row::None),
    (Row::None, Comes::Forward, Says::Remote, Row::Put),
    (Row::None, Comes::Cancel, Says::Fence, Row::Fence),
    (Row::None, Comes::DoubleForward, Says::Remote, Row::Doubled),
    (Row::None, Comes::DoubleCancel, Says::Remote, Row::Doubled),
    (Row::None, Comes::Begins, Says::Remote, Row::Put),
    (Row::None, Comes::Removed, Says::Nothing, Row::None),
    (Row::Put, Comes::Done, Says::Local, Row::PutAsked),
    (Row::Put, Comes::Wrote, Says::Nothing, Row::Put),
    (Row::Put, Comes::Missed, Says::Nothing, Row::Put),
    (Row::Put, Comes::GivenUp, Says::Double, Row::Doubled),
    (Row::Put, Comes::Forward, Says::Remote, Row::Put),
    (Row::Put, Comes::Cancel, Says::Remote, Row::Put),
    (Row::Put, Comes::Removed, Says::Nothing, Row::None),
    (Row::PutAsked, Comes::Done, Says::Nothing, Row::PutAsked),
    (Row::PutAsked, Comes::Wrote, Says::Nothing, Row::PutAsked),
    (Row::PutAsked, Comes::Missed, Says::Nothing, Row::PutAsked),
    (Row::PutAsked, Comes::GivenUp, Says::Nothing, Row::PutAsked),
    (Row::PutAsked, Comes::Forward, Says::Remote, Row::PutAsked),
    (Row::PutAsked, Comes::Cancel, Says::Remote, Row::PutAsked),
    (Row::PutAsked, Comes::Removed, Says::Nothing, Row::None),
    (Row::Doubled, Comes::Done, Says::Close, Row::DoubledAsked),
    (Row::Doubled, Comes::Wrote, Says::Nothing, Row::Doubled),
    (Row::Doubled, Comes::Missed, Says::Nothing, Row::Doubled),
    (Row::Doubled, Comes::GivenUp, Says::Nothing, Row::Doubled),
    (Row::Doubled, Comes::Forward, Says::Remote, Row::Doubled),
    (Row::Doubled, Comes::Cancel, Says::Remote, Row::Doubled),
    (
        Row::Doubled,
        Comes::DoubleForward,
        Says::Remote,
        Row::Doubled,
    ),
    (
        Row::Doubled,
        Comes::DoubleCancel,
        Says::Remote,
        Row::Doubled,
    ),
    (Row::Doubled, Comes::Removed, Says::Nothing, Row::None),
    (
        Row::DoubledAsked,
        Comes::Done,
        Says::Nothing,
        Row::DoubledAsked,
    ),
    (
        Row::DoubledAsked,
        Comes::Wrote,
        Says::Nothing,
        Row::DoubledAsked,
    ),
    (
        Row::DoubledAsked,
        Comes::Missed,
        Says::Nothing,
        Row::DoubledAsked,
    ),
    (
        Row::DoubledAsked,
        Comes::GivenUp,
        Says::Nothing,
        Row::DoubledAsked,
    ),
    (
        Row::DoubledAsked,
        Comes::Forward,
        Says::Remote,
        Row::DoubledAsked,
    ),
    (
        Row::DoubledAsked,
        Comes::Cancel,
        Says::Remote,
        Row::DoubledAsked,
    ),
    (
        Row::DoubledAsked,
        Comes::DoubleForward,
        Says::Remote,
        Row::DoubledAsked,
    ),
    (
        Row::DoubledAsked,
        Comes::DoubleCancel,
        Says::Remote,
        Row::DoubledAsked,
    ),
    (Row::DoubledAsked, Comes::Removed, Says::Nothing, Row::None),
    (Row::Fence, Comes::Done, Says::Nothing, Row::Fence),
    (Row::Fence, Comes::Wrote, Says::Local, Row::FenceAsked),
    (Row::Fence, Comes::Missed, Says::Abort, Row::FenceAsked),
    (Row::Fence, Comes::GivenUp, Says::Nothing, Row::Fence),
    (Row::Fence, Comes::Forward, Says::Fence, Row::Fence),
    (Row::Fence, Comes::Cancel, Says::Fence, Row::Fence),
    (Row::Fence, Comes::Removed, Says::Nothing, Row::None),
    (Row::FenceAsked, Comes::Done, Says::Nothing, Row::FenceAsked),
    (
        Row::FenceAsked,
        Comes::Wrote,
        Says::Nothing,
        Row::FenceAsked,
    ),
    (
        Row::FenceAsked,
        Comes::Missed,
        Says::Nothing,
        Row::FenceAsked,
    ),
    (
        Row::FenceAsked,
        Comes::GivenUp,
        Says::Nothing,
        Row::FenceAsked,
    ),
    (
        Row::FenceAsked,
        Comes::Forward,
        Says::Fence,
        Row::FenceAsked,
    ),
    (Row::FenceAsked, Comes::Cancel, Says::Fence, Row::FenceAsked),
    (Row::FenceAsked, Comes::Removed, Says::Nothing, Row::None),
];

/// What is sent for the chain that is taken up.
fn taken_up(
    alloc: Global,
    t: &mut ChainTable,
    policy: Policy,
    double: bool,
) -> Result<Says, NoMemory> {
    let rec = record(alloc, double)?;
    Ok(message_said(resume(alloc, t, &rec, policy)?))
}

/// What is sent for the chain that begins.
fn begun(alloc: Global, t: &mut ChainTable) -> Result<Says, NoMemory> {
    let rec = record(alloc, false)?;
    Ok(message_said(on_primed(alloc, t, &rec)?))
}

/// What a rule answers.
fn answered(alloc: Global, t: &mut ChainTable, comes: Comes) -> Result<Says, NoMemory> {
    match comes {
        Comes::Done => Ok(entry_said(on_remote(t, V))),
        Comes::Wrote => Ok(entry_said(on_fence(t, V, true))),
        Comes::Missed => Ok(entry_said(on_fence(t, V, false))),
        Comes::GivenUp => Ok(entry_said(give_up(t, CALL))),
        Comes::Forward => taken_up(alloc, t, Policy::Forward, false),
        Comes::Cancel => taken_up(alloc, t, Policy::Cancel, false),
        Comes::DoubleForward => taken_up(alloc, t, Policy::Forward, true),
        Comes::DoubleCancel => taken_up(alloc, t, Policy::Cancel, true),
        Comes::Begins => begun(alloc, t),
        Comes::Removed => {
            t.forget(V);
            Ok(Says::Nothing)
        }
    }
}

#[test]
fn each_rule_in_each_row(rt: HostRuntime) -> Result<(), Fail> {
    for (before, comes, says, after) in CASES {
        let mut t = table_with(rt.alloc(), before)?;
        assert!(rt; answered(rt.alloc(), &mut t, comes)? == says);
        assert!(rt; row_in(&t) == after);
    }
    Ok(())
}
