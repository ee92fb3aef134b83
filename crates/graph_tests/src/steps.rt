//! A run with each step once, and each misfit once.
use crate::lines::{Asked, Line, Said, first_wrong};
use graph_model::{Graph, Misfit};
use std::test::Fail;

/// The lines of a run, each with the misfit that it gives.
const RUN: &[(Line, Option<Misfit>)] = &[
    // Call 1 puts two edges, where none is.
    (Line::Invoke(1, Asked::Put(5, true)), None),
    (Line::Invoke(1, Asked::Gone), Some(Misfit::KnownId)),
    (Line::Begin(9), Some(Misfit::NotOpen)),
    (Line::Vertex(1), Some(Misfit::WrongKind)),
    (Line::Skip(1), Some(Misfit::NoRow)),
    (Line::Settle(1), Some(Misfit::NotPending)),
    (Line::Begin(1), None),
    // Call 2 meets its chain.
    (Line::Invoke(2, Asked::Cut), None),
    (Line::Begin(2), Some(Misfit::EdgePending)),
    (Line::Refuse(2), None),
    (Line::Reply(2, Said::Conflict(2)), Some(Misfit::WrongAnswer)),
    (Line::Reply(2, Said::Conflict(1)), None),
    // Call 3 asks while the chain is under way, and is shown moment 7, when the in-halves weren't written.
    (Line::Invoke(3, Asked::Enter), None),
    (Line::OutHalf(1), None),
    (Line::OutHalf(1), Some(Misfit::HalfDone)),
    (Line::Settle(1), Some(Misfit::HalfMissing)),
    (Line::Cancel(1), Some(Misfit::HalfDone)),
    (Line::InHalf(1), None),
    (Line::Settle(1), None),
    (Line::Reply(1, Said::Pending), None),
    (Line::Reply(1, Said::Fine), Some(Misfit::NotOpen)),
    (Line::Read(3, 5), Some(Misfit::BadMoment)),
    (Line::Read(3, 11), Some(Misfit::BadMoment)),
    (Line::Read(3, 7), None),
    (Line::Reply(3, Said::Empty), None),
    // Call 4 finds the edges there.
    (Line::Invoke(4, Asked::Put(6, true)), None),
    (Line::Refuse(4), Some(Misfit::NotPending)),
    (Line::Begin(4), Some(Misfit::RowThere)),
    (Line::Skip(4), None),
    (Line::Reply(4, Said::Skipped), None),
    // Call 5 is given up.
    (Line::Invoke(5, Asked::Cut), None),
    (Line::Begin(5), None),
    (Line::Cancel(5), None),
    (Line::Reply(5, Said::Cancelled), None),
    // A tag, which call 7 finds there.
    (Line::Invoke(6, Asked::Tag(8, true)), None),
    (Line::Vertex(6), None),
    (Line::Reply(6, Said::Unknown), None),
    (Line::Invoke(7, Asked::Tag(9, true)), None),
    (Line::Vertex(7), None),
    (Line::Reply(7, Said::Skipped), None),
    // Call 8 removes the vertex' tags, so call 9 puts its tag anew.
    (Line::Invoke(8, Asked::Gone), None),
    (Line::Vertex(8), None),
    (Line::Reply(8, Said::Fine), None),
    (Line::Invoke(9, Asked::Tag(9, true)), None),
    (Line::Vertex(9), None),
    (Line::Reply(9, Said::Fine), None),
    // Call 10 asks, and call 11 removes the edge: call 10 is shown moment 34, when its in-half was still there.
    (Line::Invoke(10, Asked::Enter), None),
    (Line::Invoke(11, Asked::Cut), None),
    (Line::Begin(11), None),
    (Line::InHalf(11), None),
    (Line::OutHalf(11), None),
    (Line::Settle(11), None),
    (Line::Read(10, 34), None),
    (Line::Reply(10, Said::Empty), Some(Misfit::WrongAnswer)),
    (Line::Reply(10, Said::Entered(5)), None),
];

#[test]
fn each_step_and_each_misfit(rt: HostRuntime) -> Result<(), Fail> {
    let mut graph = Graph::new(rt.alloc())?;
    let wrong = first_wrong(&mut graph, rt.alloc(), RUN)?;
    assert_eq!(rt; wrong, None);
    Ok(())
}
