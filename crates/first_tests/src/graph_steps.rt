//! The graph machine as a program: one chain from its call to its reply, and each misfit once.
use first_graph::{Answer, CallId, EdgeId, GStep, Graph, Misfit, Op, Query, Row, StepRefused, Val};
use lists::NoMemory;
use std::alloc::Global;
use std::test::Fail;

fn edge() -> EdgeId {
    EdgeId {
        src: 1,
        etype: 7,
        rank: 0,
        dst: 2,
    }
}

fn call() -> CallId {
    CallId {
        client: 1,
        number: 1,
    }
}

fn other() -> CallId {
    CallId {
        client: 2,
        number: 1,
    }
}

fn put(alloc: Global) -> Result<Op, NoMemory> {
    let mut row = Row::new(alloc);
    row.push(Val::Int(5))?;
    Ok(Op::PutEdge(edge(), row, true))
}

/// A graph with an open call, which puts the edge.
fn invoked(alloc: Global) -> Result<Graph, StepRefused> {
    let mut graph = Graph::new(alloc)?;
    graph.step(alloc, GStep::Invoke(call(), put(alloc)?))?;
    Ok(graph)
}

/// A graph with a chain on the edge.
fn begun(alloc: Global) -> Result<Graph, StepRefused> {
    let mut graph = invoked(alloc)?;
    graph.step(alloc, GStep::Begin(call()))?;
    Ok(graph)
}

fn settle(graph: &mut Graph, alloc: Global) -> Result<(), StepRefused> {
    graph.step(alloc, GStep::InHalf(edge()))?;
    graph.step(alloc, GStep::OutHalf(edge()))?;
    graph.step(alloc, GStep::Settle(edge()))
}

/// Why the step is not taken, where it is not.
fn misfit(graph: &mut Graph, alloc: Global, step: GStep) -> Option<Misfit> {
    match graph.step(alloc, step) {
        Err(StepRefused::Misfit(misfit)) => Some(misfit),
        _ => None,
    }
}

#[test]
fn an_edge_is_put(rt: HostRuntime) -> Result<(), Fail> {
    let alloc = rt.alloc();
    let mut graph = begun(alloc)?;
    settle(&mut graph, alloc)?;
    let found = graph.view(alloc, &Query::Edge(edge()))?;
    assert_eq!(rt; found.as_slice().len(), 1);
    let told = graph.step(alloc, GStep::Reply(call(), Answer::Fine));
    assert_eq!(rt; told, Ok(()));
    Ok(())
}

#[test]
fn a_half_is_missing(rt: HostRuntime) -> Result<(), Fail> {
    let alloc = rt.alloc();
    let mut graph = begun(alloc)?;
    let early = graph.step(alloc, GStep::Settle(edge()));
    assert_eq!(rt; early, Err(StepRefused::Misfit(Misfit::HalfMissing)));
    Ok(())
}

#[test]
fn an_open_call(rt: HostRuntime) -> Result<(), Fail> {
    let alloc = rt.alloc();
    let mut graph = invoked(alloc)?;
    let again = misfit(&mut graph, alloc, GStep::Invoke(call(), Op::DelVertex(1)));
    assert_eq!(rt; again, Some(Misfit::KnownId));
    let unknown = misfit(&mut graph, alloc, GStep::Begin(other()));
    assert_eq!(rt; unknown, Some(Misfit::NotOpen));
    let vertex = misfit(&mut graph, alloc, GStep::Vertex(call()));
    assert_eq!(rt; vertex, Some(Misfit::WrongKind));
    Ok(())
}

#[test]
fn an_edge_that_is_not_there(rt: HostRuntime) -> Result<(), Fail> {
    let alloc = rt.alloc();
    let mut graph = invoked(alloc)?;
    let skipped = misfit(&mut graph, alloc, GStep::Skip(call()));
    assert_eq!(rt; skipped, Some(Misfit::NoRow));
    let settled = misfit(&mut graph, alloc, GStep::Settle(edge()));
    assert_eq!(rt; settled, Some(Misfit::NotPending));
    let answered = misfit(&mut graph, alloc, GStep::Reply(call(), Answer::Fine));
    assert_eq!(rt; answered, Some(Misfit::WrongAnswer));
    Ok(())
}

#[test]
fn a_chain_under_way(rt: HostRuntime) -> Result<(), Fail> {
    let alloc = rt.alloc();
    let mut graph = begun(alloc)?;
    graph.step(alloc, GStep::Invoke(other(), Op::DelEdge(edge())))?;
    let second = misfit(&mut graph, alloc, GStep::Begin(other()));
    assert_eq!(rt; second, Some(Misfit::EdgePending));
    graph.step(alloc, GStep::InHalf(edge()))?;
    let twice = misfit(&mut graph, alloc, GStep::InHalf(edge()));
    assert_eq!(rt; twice, Some(Misfit::HalfDone));
    Ok(())
}

#[test]
fn an_edge_that_is_there(rt: HostRuntime) -> Result<(), Fail> {
    let alloc = rt.alloc();
    let mut graph = begun(alloc)?;
    settle(&mut graph, alloc)?;
    graph.step(alloc, GStep::Invoke(other(), put(alloc)?))?;
    let careful = misfit(&mut graph, alloc, GStep::Begin(other()));
    assert_eq!(rt; careful, Some(Misfit::RowThere));
    Ok(())
}

#[test]
fn a_moment_before_the_call(rt: HostRuntime) -> Result<(), Fail> {
    let alloc = rt.alloc();
    let mut graph = invoked(alloc)?;
    graph.step(alloc, GStep::Invoke(other(), Op::Read(Query::Tag(1, 1))))?;
    let early = misfit(&mut graph, alloc, GStep::Read(other(), 1));
    assert_eq!(rt; early, Some(Misfit::BadMoment));
    Ok(())
}
