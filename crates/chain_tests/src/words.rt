//! The words in which lists of chain events are written, and what is seen of a world behind them.
ghost use Rattle.std.specs.Prelude.{◌≡◌, true, IfOk};
ghost use Rattle.graph_model.specs.Edges.{are_edges, edges_among};

use chain_leader::ChainBody;
use chain_run::{ChainEvents, Chains};
use chain_world::ChainEvent;
use graph_model::{Answer, CallId, EdgeId, EdgeRows, GStep, Op, Query, Row, Val, Vid};
use lists::{Listed, NoMemory};
use part_keys::{Policy, VidKind};
use std::alloc::Global;

/// The call that writes, of client 1.
pub const WRITE: CallId = CallId {
    client: 1,
    number: 1,
};

/// The call that reads, of client 2.
pub const READ: CallId = CallId {
    client: 2,
    number: 1,
};

/// What happens: the writing call is that of the run, and is given up or answered by the packet of that number.
#[derive(Clone, Copy)]
pub enum Happens {
    /// The part gets a leader of this term, that has applied so many.
    Lead(u32, u64, Policy, u64),
    /// The leader takes the packet.
    Take(u32, u64, u64),
    /// The proposal of the term is decided.
    Decide(u32, u64, u64),
    /// The leader applies the next one.
    Apply(u32, u64),
    /// The writing call is given up there.
    GiveUp(u32, u64),
    /// The leader takes up its chains.
    Pulse(u32, u64),
    /// The reading call is made.
    Asks,
    /// The leader answers it.
    See(u32, u64),
    /// The writing call is answered so, by this packet.
    Fine(u64),
    Pending(u64),
    Cancelled(u64),
}

/// A step of the graph machine, by its kind; an answer by what it says.
#[derive(Clone, Copy, PartialEq, Eq)]
pub enum Step {
    Invoke,
    Begin,
    InHalf,
    OutHalf,
    Settle,
    Cancel,
    Vertex,
    Fine,
    Pending,
    Cancelled,
    Other,
}

/// A row of one value.
fn row(alloc: Global, value: i64) -> Result<Row, NoMemory> {
    let mut row = Row::new(alloc);
    row.push(Val::Int(value))?;
    Ok(row)
}

/// The edges of type 1 from vertex 1, in part 2 of two parts, to 2 and 4, which are in part 1.
const NEAR: EdgeId = EdgeId {
    src: Vid::Num(1),
    etype: 1,
    rank: 0,
    dst: Vid::Num(2),
};

const FAR: EdgeId = EdgeId {
    src: Vid::Num(1),
    etype: 1,
    rank: 0,
    dst: Vid::Num(4),
};

/// Both edges with a row.
fn edge_rows(alloc: Global) -> Result<Listed<(EdgeId, Row)>, NoMemory>
    ensures { IfOk result (λ list. are_edges (edges_among list) ≡ true) }
{
    let mut list = Listed::new(alloc);
    list.push((NEAR, row(alloc, 90)?))?;
    list.push((FAR, row(alloc, 91)?))?;
    Ok(list)
}

/// Puts both edges.
pub fn puts_edges(alloc: Global) -> Result<Op, NoMemory> {
    Ok(Op::PutEdges(EdgeRows::new(edge_rows(alloc)?), false))
}

/// Puts tag 3 of vertex 1.
pub fn puts_tag(alloc: Global) -> Result<Op, NoMemory> {
    let row = row(alloc, 7)?;
    Ok(Op::PutVertex(Vid::Num(1), 3, row, false))
}

/// The event of a word.
fn event(word: Happens) -> ChainEvent {
    match word {
        Happens::Lead(part, term, policy, applied) => {
            ChainEvent::Lead(part, term, policy, applied)
        }
        Happens::Take(part, term, number) => ChainEvent::Take(part, term, number),
        Happens::Decide(part, term, number) => ChainEvent::Decide(part, term, number),
        Happens::Apply(part, term) => ChainEvent::Apply(part, term),
        Happens::GiveUp(part, term) => ChainEvent::GiveUp(part, term, WRITE),
        Happens::Pulse(part, term) => ChainEvent::Pulse(part, term),
        Happens::Asks => ChainEvent::Invoke(READ, Op::Read(Query::Tag(Vid::Num(1), 3))),
        Happens::See(part, term) => ChainEvent::See(part, term, READ),
        Happens::Fine(number) => ChainEvent::Reply(WRITE, Answer::Fine, number),
        Happens::Pending(number) => ChainEvent::Reply(WRITE, Answer::Pending, number),
        Happens::Cancelled(number) => ChainEvent::Reply(WRITE, Answer::Cancelled, number),
    }
}

/// The writing call with this op, and then what these words say, first the one list, then the other.
pub fn events(
    alloc: Global,
    op: Op,
    first: &[Happens],
    then: &[Happens],
) -> Result<ChainEvents, NoMemory> {
    let mut events = Listed::new(alloc);
    events.push(ChainEvent::Invoke(WRITE, op))?;
    for word in first {
        events.push(event(*word))?;
    }
    for word in then {
        events.push(event(*word))?;
    }
    Ok(events)
}

/// The world of two parts behind these events.
pub fn behind(alloc: Global, events: &ChainEvents) -> Result<Chains, NoMemory> {
    Chains::run(alloc, VidKind::Num, 2, events)
}

/// A step by its kind.
fn kind_of(step: &GStep) -> Step {
    match step {
        GStep::Invoke(_, _) => Step::Invoke,
        GStep::Begin(_) => Step::Begin,
        GStep::InHalf(_) => Step::InHalf,
        GStep::OutHalf(_) => Step::OutHalf,
        GStep::Settle(_) => Step::Settle,
        GStep::Cancel(_) => Step::Cancel,
        GStep::Vertex(_) => Step::Vertex,
        GStep::Reply(_, answer) => match answer {
            Answer::Fine => Step::Fine,
            Answer::Pending => Step::Pending,
            Answer::Cancelled => Step::Cancelled,
            _ => Step::Other,
        },
        _ => Step::Other,
    }
}

/// Whether the graph's steps are of these kinds.
pub fn took(chains: &Chains, kinds: &[Step]) -> bool {
    let steps = chains.steps().as_slice();
    if steps.len() != kinds.len() {
        return false;
    }
    for (i, kind) in kinds.iter().enumerate() {
        if kind_of(&steps[i]) != *kind {
            return false;
        }
    }
    true
}

/// How many packets were sent.
pub fn sent(chains: &Chains) -> usize {
    chains.packets().len()
}

/// Whether the last packet tells the sender of a Remote that a greater term was there before.
pub fn ends_stale(chains: &Chains) -> bool {
    let Some(post) = chains.packets().as_slice().last() else {
        return false;
    };
    match &post.packet.body {
        ChainBody::Stale(term, v, above) => *term == 1 && *v == 2 && *above == 2,
        _ => false,
    }
}

/// How many rows the last packet shows a client, where it shows any.
pub fn rows_shown(chains: &Chains) -> Option<usize> {
    let Some(post) = chains.packets().as_slice().last() else {
        return None;
    };
    match &post.packet.body {
        ChainBody::Answer(_, answer) => match answer {
            Answer::Shown(view) => Some(view.len()),
            _ => None,
        },
        _ => None,
    }
}
