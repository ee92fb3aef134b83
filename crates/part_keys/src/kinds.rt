//! Which ids a space takes, and so which entries.
ghost use Rattle.std.specs.Prelude.{◌≡◌};
ghost use Rattle.graph_model.specs.declared.edge_id.EdgeId.{EdgeId};
ghost use Rattle.graph_model.specs.declared.half.Half.{Half};
ghost use Rattle.part_keys.specs.Kinds.{is_id_of, is_edge_of, are_edges_of, are_halves_of, is_query_of, is_change_of, is_entry_of};

use crate::entry::PartEntry;
use crate::vid_kind::VidKind;
use graph_model::{EdgeId, Half, Op, Query, Vid};

/// Whether the id is of the kind: a number, or a text of at most that many bytes.
pub fn is_id_of(ids: VidKind, v: &Vid) -> bool
    ensures { result ≡ is_id_of ids v.now }
{
    match ids {
        VidKind::Num => match v {
            Vid::Num(_) => true,
            Vid::Name(_) => false,
        },
        VidKind::Name(most) => match v {
            Vid::Num(_) => false,
            Vid::Name(name) => name.len() <= most,
        },
    }
}

// Whether both ends of the edge are of the kind.
fn is_edge_of(ids: VidKind, e: &EdgeId) -> bool
    ensures { result ≡ is_edge_of ids e.now }
{
    if !is_id_of(ids, &e.src) {
        return false;
    }
    is_id_of(ids, &e.dst)
}

// Whether there is an edge, and each is of the kind.
fn are_edges_of(ids: VidKind, edges: &[EdgeId]) -> bool
    ensures { result ≡ are_edges_of ids edges.now }
{
    if edges.is_empty() {
        return false;
    }
    for edge in edges {
        if !is_edge_of(ids, edge) {
            return false;
        }
    }
    true
}

// The same of edges with their halves.
fn are_halves_of(ids: VidKind, list: &[(EdgeId, Half)]) -> bool
    ensures { result ≡ are_halves_of ids list.now }
{
    if list.is_empty() {
        return false;
    }
    for half in list {
        if !is_edge_of(ids, &half.0) {
            return false;
        }
    }
    true
}

// Whether the ids that the query names are of the kind.
fn is_query_of(ids: VidKind, query: &Query) -> bool
    ensures { result ≡ is_query_of ids query.now }
{
    match query {
        Query::Tag(v, _) => is_id_of(ids, v),
        Query::Edge(edge) => is_edge_of(ids, edge),
        Query::Out(v, _) => is_id_of(ids, v),
        Query::In(v, _) => is_id_of(ids, v),
        Query::Both(v, _) => is_id_of(ids, v),
    }
}

// Whether the change's vertex is of the kind.
fn is_change_of(ids: VidKind, op: &Op) -> bool
    ensures { result ≡ is_change_of ids op.now }
{
    match op {
        Op::PutVertex(v, _, _, _) => is_id_of(ids, v),
        Op::DelVertex(v) => is_id_of(ids, v),
        _ => false,
    }
}

/// Whether it is an entry of a space with ids of this kind: each id that it names is of the kind, and a list of edges
/// holds at least one.
pub fn is_entry_of(ids: VidKind, entry: &PartEntry) -> bool
    ensures { result ≡ is_entry_of ids entry.now }
{
    match entry {
        PartEntry::Prime(_, list, _) => are_halves_of(ids, list.as_slice()),
        PartEntry::Remote(_, _, _, list) => are_halves_of(ids, list.as_slice()),
        PartEntry::Fence(_, _, _, edges) => are_edges_of(ids, edges.as_slice()),
        PartEntry::Vertex(_, op) => is_change_of(ids, op),
        PartEntry::Read(_, query) => is_query_of(ids, query),
        _ => true,
    }
}
