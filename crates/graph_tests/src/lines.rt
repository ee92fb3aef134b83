//! The words of a run: calls by their numbers, and what they ask.
ghost use Rattle.std.specs.Prelude.{◌≡◌, true, IfOk};
ghost use Rattle.graph_model.specs.Edges.{are_edges, edges_among};

use graph_model::{
    Answer, CallId, EdgeId, EdgeRows, Edges, Found, GStep, Graph, Misfit, Op, Query, Row,
    StepRefused, Types, Val, Vid, View,
};
use lists::{Listed, NoMemory};
use std::alloc::Global;

/// The edge from 1 to 2.
pub const FIRST: EdgeId = EdgeId {
    src: Vid::Num(1),
    etype: 1,
    rank: 0,
    dst: Vid::Num(2),
};

/// The edge from 2 to 1.
pub const BACK: EdgeId = EdgeId {
    src: Vid::Num(2),
    etype: 1,
    rank: 0,
    dst: Vid::Num(1),
};

/// What a call does.
#[derive(Clone, Copy)]
pub enum Asked {
    /// Puts both edges with this row; the flag is IF NOT EXISTS.
    Put(i64, bool),
    /// Removes the first edge.
    Cut,
    /// Puts tag 7 of vertex 1 with this row; the flag is IF NOT EXISTS.
    Tag(i64, bool),
    /// Removes the tags of vertex 1.
    Gone,
    /// Asks for the edges that enter vertex 2.
    Enter,
}

/// What a call is answered.
#[derive(Clone, Copy)]
pub enum Said {
    /// It is done.
    Fine,
    /// The edges were there.
    Skipped,
    /// The out-halves have it.
    Pending,
    /// This call has a chain on one of its edges.
    Conflict(u64),
    /// It was not done.
    Cancelled,
    /// Nobody answered.
    Unknown,
    /// Nothing was found.
    Empty,
    /// The edge from 1 to 2 was found by its in-half, with this row.
    Entered(i64),
}

/// A step of a call, which is named by its number.
#[derive(Clone, Copy)]
pub enum Line {
    Invoke(u64, Asked),
    Begin(u64),
    Skip(u64),
    Refuse(u64),
    InHalf(u64),
    OutHalf(u64),
    Settle(u64),
    Cancel(u64),
    Vertex(u64),
    Read(u64, u64),
    Reply(u64, Said),
}

/// The call of client 1 with this number.
fn call(number: u64) -> CallId {
    CallId { client: 1, number }
}

fn row(alloc: Global, value: i64) -> Result<Row, NoMemory> {
    let mut row = Row::new(alloc);
    row.push(Val::Int(value))?;
    Ok(row)
}

/// Both edges with this row.
fn both(alloc: Global, value: i64) -> Result<Listed<(EdgeId, Row)>, NoMemory>
    ensures { IfOk result (λ list. are_edges (edges_among list) ≡ true) }
{
    let mut list = Listed::new(alloc);
    list.push((FIRST, row(alloc, value)?))?;
    list.push((BACK, row(alloc, value)?))?;
    Ok(list)
}

fn op(alloc: Global, asked: Asked) -> Result<Op, NoMemory> {
    Ok(match asked {
        Asked::Put(value, absent) => Op::PutEdges(EdgeRows::new(both(alloc, value)?), absent),
        Asked::Cut => Op::DelEdges(Edges::new(Listed::from_slice(alloc, &[FIRST])?)),
        Asked::Tag(value, absent) => Op::PutVertex(Vid::Num(1), 7, row(alloc, value)?, absent),
        Asked::Gone => Op::DelVertex(Vid::Num(1)),
        Asked::Enter => Op::Read(Query::In(Vid::Num(2), types(alloc)?)),
    })
}

/// The edge type 1.
pub fn types(alloc: Global) -> Result<Types, NoMemory> {
    Types::from_slice(alloc, &[1])
}

fn answer(alloc: Global, said: Said) -> Result<Answer, NoMemory> {
    Ok(match said {
        Said::Fine => Answer::Fine,
        Said::Skipped => Answer::Skipped,
        Said::Pending => Answer::Pending,
        Said::Conflict(number) => Answer::Conflict(call(number)),
        Said::Cancelled => Answer::Cancelled,
        Said::Unknown => Answer::Unknown,
        Said::Empty => Answer::Shown(View::new(alloc)),
        Said::Entered(value) => Answer::Shown(entered(alloc, value)?),
    })
}

fn entered(alloc: Global, value: i64) -> Result<View, NoMemory> {
    let mut view = View::new(alloc);
    view.push(Found {
        edge: Some(FIRST),
        inward: true,
        row: row(alloc, value)?,
    })?;
    Ok(view)
}

fn step(alloc: Global, line: Line) -> Result<GStep, NoMemory> {
    Ok(match line {
        Line::Invoke(number, asked) => {
            GStep::Invoke(call(number), op(alloc, asked)?.copy(alloc)?)
        }
        Line::Begin(number) => GStep::Begin(call(number)),
        Line::Skip(number) => GStep::Skip(call(number)),
        Line::Refuse(number) => GStep::Refuse(call(number)),
        Line::InHalf(number) => GStep::InHalf(call(number)),
        Line::OutHalf(number) => GStep::OutHalf(call(number)),
        Line::Settle(number) => GStep::Settle(call(number)),
        Line::Cancel(number) => GStep::Cancel(call(number)),
        Line::Vertex(number) => GStep::Vertex(call(number)),
        Line::Read(number, moment) => GStep::Read(call(number), moment),
        Line::Reply(number, said) => GStep::Reply(call(number), answer(alloc, said)?),
    })
}

/// Takes a step; gives the misfit, where it isn't taken.
fn taken(graph: &mut Graph, alloc: Global, line: Line) -> Result<Option<Misfit>, NoMemory> {
    let step = step(alloc, line)?;
    match graph.step(alloc, step) {
        Ok(()) => Ok(None),
        Err(StepRefused::Misfit(misfit)) => Ok(Some(misfit)),
        Err(StepRefused::NoMemory) => Err(NoMemory),
    }
}

/// Takes these steps; gives the place of the first whose misfit is another one than is said.
pub fn first_wrong(
    graph: &mut Graph,
    alloc: Global,
    run: &[(Line, Option<Misfit>)],
) -> Result<Option<usize>, NoMemory> {
    for (i, said) in run.iter().enumerate() {
        let misfit = taken(graph, alloc, said.0)?;
        if misfit != said.1 {
            return Ok(Some(i));
        }
    }
    Ok(None)
}
