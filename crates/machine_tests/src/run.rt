//! A run with each entry's answers.
use crate::lines::{Came, Line, Said, Who, first_wrong};
use graph_model::{Query, Types, Val, Vid};
use std::test::Fail;

/// The lines of a run, each with its answer.
const RUN: &[(Line, Said)] = &[
    // Client 1 puts two edges; its chain is number 1.
    (
        Line::Prime(Who::One, 1, true, Some(90), false),
        Said::Begun(1),
    ),
    (
        Line::Prime(Who::One, 1, true, Some(90), false),
        Said::Again(Came::Open),
    ),
    // Client 2 meets it.
    (
        Line::Prime(Who::Two, 1, false, Some(91), false),
        Said::Conflict(1, 1),
    ),
    (Line::Local(1), Said::Settled(1, 1)),
    (Line::Local(1), Said::Nothing),
    (
        Line::Prime(Who::One, 1, true, Some(90), false),
        Said::Again(Came::Fine),
    ),
    (
        Line::Prime(Who::Two, 1, false, Some(91), false),
        Said::Again(Came::Conflict(1, 1)),
    ),
    (
        Line::Prime(Who::One, 2, true, Some(91), true),
        Said::Skipped,
    ),
    (
        Line::Prime(Who::One, 2, true, Some(91), true),
        Said::Again(Came::Skipped),
    ),
    (Line::Prime(Who::One, 1, true, Some(90), false), Said::Old),
    // A removal is doubled; its chain is number 11.
    (Line::Prime(Who::One, 3, true, None, false), Said::Begun(11)),
    (Line::Close(11), Said::Nothing),
    (Line::Double(11), Said::Doubled(1, 3)),
    (
        Line::Prime(Who::One, 3, true, None, false),
        Said::Again(Came::Pending),
    ),
    (
        Line::Prime(Who::Two, 2, false, Some(91), false),
        Said::Conflict(1, 3),
    ),
    (Line::Double(11), Said::Nothing),
    (Line::Local(11), Said::Nothing),
    (Line::Abort(11), Said::Nothing),
    (Line::Close(11), Said::Closed(1, 3)),
    (Line::Close(11), Said::Nothing),
    // With IF NOT EXISTS, where none of the edges is here.
    (
        Line::Prime(Who::One, 4, true, Some(92), true),
        Said::Begun(21),
    ),
    (Line::Abort(21), Said::Aborted(1, 4)),
    (Line::Abort(21), Said::Nothing),
    (
        Line::Prime(Who::One, 4, true, Some(92), true),
        Said::Again(Came::Cancelled),
    ),
    // A Remote of part 1, and one of an earlier chain that comes late.
    (Line::Fence(5, 3), Said::Fenced(false)),
    (Line::Remote(5, 3, Some(80)), Said::Done),
    (Line::Fence(5, 3), Said::Fenced(true)),
    (Line::Remote(5, 2, None), Said::Done),
    (Line::Fence(6, 4), Said::Fenced(false)),
    (Line::Remote(5, 4, None), Said::Stale(6)),
    (Line::Fence(5, 4), Said::Stale(6)),
    // A tag.
    (Line::Tag(5, false), Said::Finished(1, 5)),
    (Line::Tag(6, true), Said::Skipped),
    (Line::Tag(5, false), Said::Old),
    (Line::Gone(7), Said::Finished(1, 7)),
    (Line::Tag(7, false), Said::Again(Came::Fine)),
    (Line::Tag(8, true), Said::Finished(1, 8)),
    // With IF NOT EXISTS, where one of the edges is here: the chain, number 40, takes the other.
    (
        Line::Prime(Who::One, 9, false, Some(93), false),
        Said::Begun(38),
    ),
    (Line::Local(38), Said::Settled(1, 9)),
    (
        Line::Prime(Who::One, 10, true, Some(94), true),
        Said::Begun(40),
    ),
    (Line::Double(40), Said::Doubled(1, 10)),
];

#[test]
fn each_entry_and_each_answer(rt: HostRuntime) -> Result<(), Fail> {
    let (_, wrong) = first_wrong(rt.alloc(), RUN)?;
    assert_eq!(rt; wrong, None);
    Ok(())
}

/// Whether the row is this number alone.
fn is_number(row: &[Val], wanted: i64) -> bool {
    match row {
        [Val::Int(number)] => *number == wanted,
        _ => false,
    }
}

#[test]
fn what_stands_at_the_end(rt: HostRuntime) -> Result<(), Fail> {
    let alloc = rt.alloc();
    let (machine, _) = first_wrong(alloc, RUN)?;
    let follows = Types::from_slice(alloc, &[1])?;
    let found = machine.view(alloc, &Query::Both(Vid::Num(1), follows))?;
    let wanted = [(true, 80), (true, 80), (false, 93), (false, 94)];
    assert_eq!(rt; found.len(), 4);
    for (row, want) in found.as_slice().iter().zip(wanted.iter()) {
        assert_eq!(rt; row.inward, want.0);
        assert!(rt; is_number(row.row.as_slice(), want.1));
    }
    let chains = machine.primes(alloc, 0)?;
    assert_eq!(rt; chains.len(), 1);
    assert_eq!(rt; chains.as_slice()[0].v, 40);
    assert_eq!(rt; chains.as_slice()[0].list.len(), 1);
    Ok(())
}
