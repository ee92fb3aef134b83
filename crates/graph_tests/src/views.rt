//! What each kind of query shows.
use crate::lines::{Asked, BACK, FIRST, Line, first_wrong, types};
use graph_model::{EdgeId, Graph, Misfit, Query, Val, Vid, View};
use lists::NoMemory;
use std::alloc::Global;
use std::test::Fail;

/// Two edges, of which the first has no out-half any more while its chain is under way; and a tag.
const RUN: &[(Line, Option<Misfit>)] = &[
    (Line::Invoke(1, Asked::Put(5, false)), None),
    (Line::Begin(1), None),
    (Line::InHalf(1), None),
    (Line::OutHalf(1), None),
    (Line::Settle(1), None),
    (Line::Invoke(2, Asked::Tag(8, false)), None),
    (Line::Vertex(2), None),
    (Line::Invoke(3, Asked::Cut), None),
    (Line::Begin(3), None),
    (Line::OutHalf(3), None),
];

/// A kind of query.
#[derive(Clone, Copy)]
enum Kind {
    Tag,
    Edge,
    Out,
    In,
    Both,
}

/// A row that is shown: whether it is an in-edge, and its value.
type Seen = Option<(bool, i64)>;

/// What is asked of vertex 1 or 2, and the rows that are shown.
const SHOWN: &[(Kind, i64, Seen, Seen)] = &[
    (Kind::Tag, 1, Some((false, 8)), None),
    (Kind::Tag, 2, None, None),
    (Kind::Edge, 1, None, None),
    (Kind::Edge, 2, Some((false, 5)), None),
    (Kind::Out, 1, None, None),
    (Kind::Out, 2, Some((false, 5)), None),
    (Kind::In, 1, Some((true, 5)), None),
    (Kind::In, 2, Some((true, 5)), None),
    (Kind::Both, 1, Some((true, 5)), None),
    (Kind::Both, 2, Some((true, 5)), Some((false, 5))),
];

/// The edge that leaves the vertex.
fn edge_from(number: i64) -> EdgeId {
    if number == 1 { FIRST } else { BACK }
}

fn query(alloc: Global, kind: Kind, number: i64) -> Result<Query, NoMemory> {
    let v = Vid::Num(number);
    Ok(match kind {
        Kind::Tag => Query::Tag(v, 7),
        Kind::Edge => Query::Edge(edge_from(number)),
        Kind::Out => Query::Out(v, types(alloc)?),
        Kind::In => Query::In(v, types(alloc)?),
        Kind::Both => Query::Both(v, types(alloc)?),
    })
}

/// A row of a view.
fn seen(view: &View, i: usize) -> Seen {
    let Some(found) = view.as_slice().get(i) else {
        return None;
    };
    let Some(Val::Int(value)) = found.row.as_slice().first() else {
        return None;
    };
    Some((found.inward, *value))
}

/// The place of the first query that shows other rows than is said.
fn first_unseen(
    graph: &Graph,
    alloc: Global,
    shown: &[(Kind, i64, Seen, Seen)],
) -> Result<Option<usize>, NoMemory> {
    for (i, said) in shown.iter().enumerate() {
        let query = query(alloc, said.0, said.1)?.copy(alloc)?;
        let view = graph.view(alloc, &query)?;
        if seen(&view, 0) != said.2 || seen(&view, 1) != said.3 || view.len() > 2 {
            return Ok(Some(i));
        }
    }
    Ok(None)
}

#[test]
fn each_kind_of_query(rt: HostRuntime) -> Result<(), Fail> {
    let mut graph = Graph::new(rt.alloc())?;
    let wrong = first_wrong(&mut graph, rt.alloc(), RUN)?;
    assert_eq!(rt; wrong, None);
    let unseen = first_unseen(&graph, rt.alloc(), SHOWN)?;
    assert_eq!(rt; unseen, None);
    Ok(())
}
