//! How many bytes entries take at most, by which a writer makes its buffer in one piece. What is told here is no promise: a
//! writer that needs more takes more.
use crate::entry::PartEntry;
use graph_model::{EdgeHalves, Edges, Half, Op, Query, Row, Val};

/// The most bytes of an entry before its list, its row or its query: the kind, a part, a term and a chain.
const MOST_HEAD: usize = 21;

/// The most bytes of a vertex's change before its row: the kind, an id, a tag and a flag.
const MOST_TAG: usize = 40;

/// The most bytes of an edge: two texts of 32 bytes behind their kinds and lengths, a type and a rank.
const MOST_EDGE: usize = 80;

fn value_room(val: &Val) -> usize {
    match val {
        Val::Null => 1,
        Val::Int(_) => 9,
        Val::Flag(_) => 2,
        Val::Words(text) => text.len().saturating_add(5),
    }
}

fn row_room(vals: &Row) -> usize {
    let mut room: usize = 2;
    for val in vals.as_slice() {
        room = room.saturating_add(value_room(val));
    }
    room
}

fn half_room(half: &Half) -> usize {
    match half {
        Half::Absent => 1,
        Half::Here(vals) => row_room(vals).saturating_add(1),
    }
}

/// How many bytes edges take at most, behind their count.
pub fn edges_room(list: &Edges) -> usize {
    list.len().saturating_mul(MOST_EDGE).saturating_add(1)
}

/// How many bytes edges with their halves take at most, behind their count.
pub fn halves_room(list: &EdgeHalves) -> usize {
    let mut room: usize = 1;
    for item in list.as_slice() {
        room = room
            .saturating_add(half_room(&item.1))
            .saturating_add(MOST_EDGE);
    }
    room
}

fn query_room(asked: &Query) -> usize {
    let types = match asked {
        Query::Tag(_, _) | Query::Edge(_) => 0,
        Query::Out(_, types) | Query::In(_, types) | Query::Both(_, types) => types
            .as_slice()
            .len(),
    };
    types.saturating_mul(4).saturating_add(MOST_EDGE + 2)
}

/// How many bytes an entry takes at most.
pub fn entry_room(made: &PartEntry) -> usize {
    let fields = match made {
        PartEntry::Prime(_, list, _) | PartEntry::Remote(_, _, _, list) => halves_room(list),
        PartEntry::Fence(_, _, _, list) => edges_room(list),
        PartEntry::Vertex(_, Op::PutVertex(_, _, vals, _)) => {
            row_room(vals).saturating_add(MOST_TAG)
        }
        PartEntry::Read(_, query) => query_room(query),
        _ => MOST_TAG,
    };
    fields.saturating_add(MOST_HEAD)
}
