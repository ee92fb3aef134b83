//! Which part an entry routes to, and which entries belong to a part.
ghost use Rattle.std.specs.Prelude.{◌≡◌, ◌<◌, ◌==◌};
ghost use Rattle.std.specs.List.{list_all};
ghost use Rattle.graph_model.specs.declared.edge_id.EdgeId.{EdgeId};
ghost use Rattle.part_keys.specs.Routing.{part_of, part_of_query, all_from, all_into, remote_of, change_belongs, routes_to, belongs, is_read, is_payload};

use crate::entry::PartEntry;
use crate::kinds::is_entry_of;
use crate::part::part_number;
use crate::vid_kind::VidKind;
use graph_model::{EdgeId, Half, Op, Query};

/// The part of a query: that of its vertex, or of the source of its edge.
pub fn part_of_query(parts: u32, query: &Query) -> u32
    requires { 0 < parts }
    ensures { result ≡ part_of_query parts query.now }
{
    match query {
        Query::Tag(v, _) => part_number(v, parts),
        Query::Edge(edge) => part_number(&edge.src, parts),
        Query::Out(v, _) => part_number(v, parts),
        Query::In(v, _) => part_number(v, parts),
        Query::Both(v, _) => part_number(v, parts),
    }
}

/// Whether the entry is one of this space, and what it names routes to the part.
pub fn belongs(ids: VidKind, parts: u32, part: u32, entry: &PartEntry) -> bool
    requires { 0 < parts }
    ensures { result ≡ belongs ids parts part entry.now }
{
    if !is_entry_of(ids, entry) {
        return false;
    }
    routes_to(parts, part, entry)
}

/// Whether the entry may stand in the part's log: it belongs to the part, and isn't a Read.
pub fn is_payload(ids: VidKind, parts: u32, part: u32, entry: &PartEntry) -> bool
    requires { 0 < parts }
    ensures { result ≡ is_payload ids parts part entry.now }
{
    if !belongs(ids, parts, part, entry) {
        return false;
    }
    !is_read(entry)
}

fn is_read(entry: &PartEntry) -> bool
    ensures { result ≡ is_read entry.now }
{
    match entry {
        PartEntry::Read(..) => true,
        _ => false,
    }
}

fn routes_to(parts: u32, part: u32, entry: &PartEntry) -> bool
    requires { 0 < parts }
    ensures { result ≡ routes_to parts part entry.now }
{
    match entry {
        PartEntry::Prime(_, list, _) => {
            if !all_from(parts, part, list.as_slice()) {
                return false;
            }
            all_into(parts, remote_of(parts, list.as_slice()), list.as_slice())
        }
        PartEntry::Remote(_, _, _, list) => all_into(parts, part, list.as_slice()),
        PartEntry::Fence(_, _, _, edges) => all_end_in(parts, part, edges.as_slice()),
        PartEntry::Vertex(_, op) => change_belongs(parts, part, op),
        PartEntry::Read(_, query) => part_of_query(parts, query) == part,
        _ => true,
    }
}

fn change_belongs(parts: u32, part: u32, op: &Op) -> bool
    requires { 0 < parts }
    ensures { result ≡ change_belongs parts part op.now }
{
    match op {
        Op::PutVertex(v, _, _, _) => part_number(v, parts) == part,
        Op::DelVertex(v) => part_number(v, parts) == part,
        _ => false,
    }
}

/// Whether each edge starts in the part.
fn all_from(parts: u32, part: u32, list: &[(EdgeId, Half)]) -> bool
    requires { 0 < parts }
    ensures { result ≡ all_from parts part list.now }
{
    for half in list {
        if part_number(&half.0.src, parts) != part {
            return false;
        }
    }
    true
}

/// Whether each edge ends in the part.
fn all_into(parts: u32, part: u32, list: &[(EdgeId, Half)]) -> bool
    requires { 0 < parts }
    ensures { result ≡ all_into parts part list.now }
{
    for half in list {
        if part_number(&half.0.dst, parts) != part {
            return false;
        }
    }
    true
}

/// Whether each of these edges ends in the part.
fn all_end_in(parts: u32, part: u32, edges: &[EdgeId]) -> bool
    requires { 0 < parts }
    ensures { result ≡ list_all (λ (e : EdgeId). part_of parts e.dst == part) edges.now }
{
    for edge in edges {
        if part_number(&edge.dst, parts) != part {
            return false;
        }
    }
    true
}

/// The part in which the edges end, that of the first; 0 of no edge.
fn remote_of(parts: u32, list: &[(EdgeId, Half)]) -> u32
    requires { 0 < parts }
    ensures { result ≡ remote_of parts list.now }
{
    match list.first() {
        Some(half) => part_number(&half.0.dst, parts),
        None => 0,
    }
}
