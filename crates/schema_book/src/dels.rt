//! What DELETE binds to.
ghost use Rattle.std.specs.Prelude.{◌≡◌, ◌<◌, map, None, IfOk, OnOk};
ghost use Rattle.schema_book.specs.Entries.{most_entries};
ghost use Rattle.graph_model.specs.Keys.{edge_cmp};
ghost use Rattle.maps.specs.Keys.{has_key};
ghost use Rattle.schema_book.specs.Ids as id;
ghost use Rattle.schema_book.specs.Puts as spec;
ghost use Rattle.schema_book.specs.Refusals.{Passes};
ghost use Rattle.schema_book.specs.Lists as list_spec;

use crate::bound::Ops;
use crate::ids::{check_ends, check_long, check_long_ends, check_vid, edge_of, vid_of};
use crate::refused::{BookRefused, Stop};
use graph_model::{EdgeId, Edges, MOST_EDGES, Op};
use lists::{Listed, NoMemory};
use ngql_syntax::{Ends, Lit};
use part_keys::VidKind;
use std::alloc::Global;

#[tactic(auto, unfolding(crate::specs::Lists::wrong_vids))]
fn check_kinds(alloc: Global, ids: VidKind, list: &[Lit]) -> Result<(), Stop>
    ensures { Passes result (list_spec.wrong_vids ids list.now) }
{
    for lit in list {
        check_vid(alloc, ids, lit)?;
    }
    Ok(())
}

#[tactic(auto, unfolding(crate::specs::Lists::long_vids))]
fn check_lengths(ids: VidKind, list: &[Lit]) -> Result<(), Stop>
    ensures { Passes result (list_spec.long_vids ids list.now) }
{
    for lit in list {
        check_long(ids, lit)?;
    }
    Ok(())
}

/// Refuses ids of the other kind, then ids that are too long.
#[tactic(auto, unfolding(crate::specs::Lists::vids_refused))]
pub fn check_vids(alloc: Global, ids: VidKind, list: &[Lit]) -> Result<(), Stop>
    ensures { Passes result (list_spec.vids_refused ids list.now) }
{
    check_kinds(alloc, ids, list)?;
    check_lengths(ids, list)
}

#[tactic(auto, unfolding(crate::specs::Lists::wrong_ends_among))]
fn check_end_kinds(alloc: Global, ids: VidKind, list: &[Ends]) -> Result<(), Stop>
    ensures { Passes result (list_spec.wrong_ends_among ids list.now) }
{
    for ends in list {
        check_ends(alloc, ids, ends)?;
    }
    Ok(())
}

#[tactic(auto, unfolding(crate::specs::Lists::long_ends_among))]
fn check_end_lengths(ids: VidKind, list: &[Ends]) -> Result<(), Stop>
    ensures { Passes result (list_spec.long_ends_among ids list.now) }
{
    for ends in list {
        check_long_ends(ids, ends)?;
    }
    Ok(())
}

/// Refuses ends of the other kind, then ends that are too long.
#[tactic(auto, unfolding(crate::specs::Lists::ends_refused))]
pub fn check_ends_list(alloc: Global, ids: VidKind, list: &[Ends]) -> Result<(), Stop>
    ensures { Passes result (list_spec.ends_refused ids list.now) }
{
    check_end_kinds(alloc, ids, list)?;
    check_end_lengths(ids, list)
}

/// Refuses an edge that is one too many for a call.
#[tactic(auto, unfolding(crate::specs::Puts::ends_beyond))]
pub fn check_few(list: &[Ends]) -> Result<(), Stop>
    ensures { Passes result (spec.ends_beyond list.now) }
{
    match list.get(MOST_EDGES) {
        Some(ends) => Err(Stop::Refused(BookRefused::TooMany(ends.src.at))),
        None => Ok(()),
    }
}

/// A call for each vertex, in their order.
#[tactic(auto, unfolding(crate::specs::Lists::vertex_dels))]
pub fn vertex_dels(alloc: Global, list: &[Lit]) -> Result<Ops, NoMemory>
    ensures { IfOk result (λ calls. calls ≡ list_spec.vertex_dels list.now) }
{
    let mut calls = Listed::new(alloc);
    for lit in list {
        calls.push(Op::DelVertex(vid_of(&lit.val)))?;
    }
    Ok(calls)
}

/// Whether the edge is one of these.
fn has_edge(edge: &EdgeId, edges: &[EdgeId]) -> bool
    ensures { result ≡ has_key edge_cmp edge.now edges.now }
{
    for other in edges {
        if edge.equals(other) {
            return true;
        }
    }
    false
}

/// The edges of a type between these ends, each once.
fn edges_once(alloc: Global, place: usize, list: &[Ends]) -> Result<Listed<EdgeId>, NoMemory>
    requires { place < most_entries }
    ensures { IfOk result (λ edges. edges ≡ spec.edges_once (map (id.edge_of place) list.now)) }
{
    let mut kept = Listed::new(alloc);
    for ends in list {
        let edge = edge_of(place, ends);
        if !has_edge(&edge, kept.as_slice()) {
            kept.push(edge)?;
        }
    }
    Ok(kept)
}

/// One call for all edges, each of them once, and none where there is no edge.
#[tactic(auto, unfolding(crate::specs::Puts::del_calls))]
pub fn edge_dels(alloc: Global, place: usize, list: &[Ends]) -> Result<Ops, NoMemory>
    requires place { place < most_entries }
    requires few { spec.ends_beyond list.now ≡ None }
    ensures { IfOk result (λ calls. calls ≡ spec.del_calls place list.now) }
{
    let kept = edges_once(alloc, place, list)?;
    let mut calls = Listed::new(alloc);
    if kept.len() < 1 {
        return Ok(calls);
    }
    calls.push(Op::DelEdges(Edges::new(kept)))?;
    Ok(calls)
}
