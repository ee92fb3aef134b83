//! The names in which the tables speak, and a table with one chain.

use chain_leader::ChainTable;
use graph_model::{CallId, EdgeHalves, EdgeId, Edges, Vid, are_edges};
use lists::{Listed, NoMemory};
use part_keys::{ChainMsg, ChainState, Mode, PartEntry, PrimeRec};
use std::alloc::Global;

/// The row of the chain: none, or its mode and whether its end was asked for.
#[derive(Clone, Copy, PartialEq, Eq)]
pub enum Row {
    None,
    Put,
    PutAsked,
    Doubled,
    DoubledAsked,
    Fence,
    FenceAsked,
}

/// What is answered: nothing, an entry that is proposed, or a message that leaves.
#[derive(Clone, Copy, PartialEq, Eq)]
pub enum Says {
    Nothing,
    Local,
    Close,
    Abort,
    Double,
    Remote,
    Fence,
    Other,
}

/// The number of the chain.
pub const V: u64 = 9;

/// Its call.
pub const CALL: CallId = CallId {
    client: 1,
    number: 1,
};

/// Its edge.
const EDGE: EdgeId = EdgeId {
    src: Vid::Num(1),
    etype: 1,
    rank: 0,
    dst: Vid::Num(2),
};

/// The edges of the chain: its one edge.
fn edges(alloc: Global) -> Result<Edges, NoMemory> {
    let mut list = Listed::new(alloc);
    list.push(EDGE)?;
    if !are_edges(list.as_slice()) {
        return Err(NoMemory);
    }
    Ok(Edges::new(list))
}

/// The chain removes its edge.
fn removed(alloc: Global) -> Result<EdgeHalves, NoMemory> {
    EdgeHalves::removed(alloc, &edges(alloc)?)
}

/// The record of the chain, double or not.
pub fn record(alloc: Global, double: bool) -> Result<PrimeRec, NoMemory> {
    let list = removed(alloc)?;
    Ok(PrimeRec {
        v: V,
        id: CALL,
        remote: 1,
        list,
        double,
    })
}

/// The mode of a row, and whether its end was asked for.
fn mode_of(row: Row) -> Option<(Mode, bool)> {
    match row {
        Row::None => None,
        Row::Put => Some((Mode::Put, false)),
        Row::PutAsked => Some((Mode::Put, true)),
        Row::Doubled => Some((Mode::Doubled, false)),
        Row::DoubledAsked => Some((Mode::Doubled, true)),
        Row::Fence => Some((Mode::Fence, false)),
        Row::FenceAsked => Some((Mode::Fence, true)),
    }
}

/// A table with that row.
pub fn table_with(alloc: Global, row: Row) -> Result<ChainTable, NoMemory> {
    let mut t = ChainTable::new(alloc);
    let Some((mode, asked)) = mode_of(row) else {
        return Ok(t);
    };
    let list = removed(alloc)?;
    t.reserve(1)?;
    t.add(
        V,
        ChainState {
            id: CALL,
            remote: 1,
            list,
            mode,
            asked,
            tries: 0,
            hint: 0,
        },
    );
    Ok(t)
}

/// The row of the chain in the table.
pub fn row_in(t: &ChainTable) -> Row {
    let Some(chain) = t.get(V) else {
        return Row::None;
    };
    match chain.mode {
        Mode::Put => if chain.asked { Row::PutAsked } else { Row::Put },
        Mode::Doubled => if chain.asked {
            Row::DoubledAsked
        } else {
            Row::Doubled
        },
        Mode::Fence => if chain.asked {
            Row::FenceAsked
        } else {
            Row::Fence
        },
    }
}

/// An entry by its name.
pub fn entry_said(entry: Option<PartEntry>) -> Says {
    let Some(entry) = entry else {
        return Says::Nothing;
    };
    match entry {
        PartEntry::Local(_) => Says::Local,
        PartEntry::Close(_) => Says::Close,
        PartEntry::Abort(_) => Says::Abort,
        PartEntry::Double(_) => Says::Double,
        _ => Says::Other,
    }
}

/// A message by its name.
pub fn message_said(message: ChainMsg) -> Says {
    match message {
        ChainMsg::Remote(_) => Says::Remote,
        ChainMsg::Fence(_) => Says::Fence,
    }
}
