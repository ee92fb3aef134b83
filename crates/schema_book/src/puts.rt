//! What INSERT binds to.
ghost use Rattle.std.specs.Prelude.{◌≡◌, ◌<◌, None, IfOk, OnOk};
ghost use Rattle.schema_book.specs.Entries.{most_entries};
ghost use Rattle.schema_book.specs.Puts as spec;
ghost use Rattle.schema_book.specs.Refusals.{Passes};

use crate::bound::Ops;
use crate::ids::{check_ends, check_long, check_long_ends, check_vid, edge_of, vid_of};
use crate::refused::{BookRefused, Stop};
use crate::rows::{check_count, check_listed, check_once, check_set, check_values, row_of};
use graph_model::{EdgeId, EdgeRows, MOST_EDGES, Op, Row};
use lists::{Listed, NoMemory};
use ngql_syntax::{Column, EdgeRow, PutEdges, PutVertices, Spanned, VertexRow};
use part_keys::VidKind;
use std::alloc::Global;

#[tactic(auto, unfolding(crate::specs::Puts::vertex_counts))]
fn check_vertex_counts(names: &[Spanned], rows: &[VertexRow]) -> Result<(), Stop>
    ensures { Passes result (spec.vertex_counts names.now rows.now) }
{
    for row in rows {
        check_count(names, &row.values)?;
    }
    Ok(())
}

#[tactic(auto, unfolding(crate::specs::Puts::vertex_values))]
fn check_vertex_rows(
    alloc: Global,
    ids: VidKind,
    columns: &[Column],
    names: &[Spanned],
    rows: &[VertexRow],
) -> Result<(), Stop>
    ensures { Passes result (spec.vertex_values ids columns.now names.now rows.now) }
{
    for row in rows {
        check_vid(alloc, ids, &row.id)?;
        check_values(alloc, columns, names, row.values.list.as_slice())?;
    }
    Ok(())
}

#[tactic(auto, unfolding(crate::specs::Puts::vertex_longs))]
fn check_long_rows(ids: VidKind, rows: &[VertexRow]) -> Result<(), Stop>
    ensures { Passes result (spec.vertex_longs ids rows.now) }
{
    for row in rows {
        check_long(ids, &row.id)?;
    }
    Ok(())
}

/// Refuses what INSERT VERTEX may not write.
pub fn check_vertices(
    alloc: Global,
    ids: VidKind,
    columns: &[Column],
    words: &PutVertices,
) -> Result<(), Stop>
    ensures { Passes result (spec.vertices_refused ids columns.now words.now) }
{
    let names = words.columns.as_slice();
    let rows = words.rows.as_slice();
    check_listed(alloc, columns, names)?;
    check_once(alloc, names)?;
    check_vertex_counts(names, rows)?;
    check_vertex_rows(alloc, ids, columns, names, rows)?;
    check_long_rows(ids, rows)?;
    check_set(alloc, columns, names)
}

/// A call for each vertex, in their order.
#[tactic(auto, unfolding(crate::specs::Puts::vertex_calls))]
pub fn vertex_calls(
    alloc: Global,
    place: usize,
    columns: &[Column],
    words: &PutVertices,
) -> Result<Ops, NoMemory>
    requires { place < most_entries }
    ensures { IfOk result (λ calls. calls ≡ spec.vertex_calls place columns.now words.now) }
{
    let mut calls = Listed::new(alloc);
    let names = words.columns.as_slice();
    let number = place as u32 + 1;
    for row in words.rows.as_slice() {
        let made = row_of(alloc, columns, names, row.values.list.as_slice())?;
        calls.push(Op::PutVertex(vid_of(&row.id.val), number, made, words.absent))?;
    }
    Ok(calls)
}

#[tactic(auto, unfolding(crate::specs::Puts::edge_counts))]
fn check_edge_counts(names: &[Spanned], rows: &[EdgeRow]) -> Result<(), Stop>
    ensures { Passes result (spec.edge_counts names.now rows.now) }
{
    for row in rows {
        check_count(names, &row.values)?;
    }
    Ok(())
}

#[tactic(auto, unfolding(crate::specs::Puts::edge_values))]
fn check_edge_rows(
    alloc: Global,
    ids: VidKind,
    columns: &[Column],
    names: &[Spanned],
    rows: &[EdgeRow],
) -> Result<(), Stop>
    ensures { Passes result (spec.edge_values ids columns.now names.now rows.now) }
{
    for row in rows {
        check_ends(alloc, ids, &row.ends)?;
        check_values(alloc, columns, names, row.values.list.as_slice())?;
    }
    Ok(())
}

#[tactic(auto, unfolding(crate::specs::Puts::edge_longs))]
fn check_long_edges(ids: VidKind, rows: &[EdgeRow]) -> Result<(), Stop>
    ensures { Passes result (spec.edge_longs ids rows.now) }
{
    for row in rows {
        check_long_ends(ids, &row.ends)?;
    }
    Ok(())
}

/// Refuses an edge that is one too many for a call.
#[tactic(auto, unfolding(crate::specs::Puts::edge_beyond))]
fn check_beyond(rows: &[EdgeRow]) -> Result<(), Stop>
    ensures { Passes result (spec.edge_beyond rows.now) }
{
    match rows.get(MOST_EDGES) {
        Some(row) => Err(Stop::Refused(BookRefused::TooMany(row.ends.src.at))),
        None => Ok(()),
    }
}

/// Refuses what INSERT EDGE may not write.
pub fn check_edges(
    alloc: Global,
    ids: VidKind,
    columns: &[Column],
    words: &PutEdges,
) -> Result<(), Stop>
    ensures { Passes result (spec.edges_refused ids columns.now words.now) }
{
    let names = words.columns.as_slice();
    let rows = words.rows.as_slice();
    check_listed(alloc, columns, names)?;
    check_once(alloc, names)?;
    check_edge_counts(names, rows)?;
    check_edge_rows(alloc, ids, columns, names, rows)?;
    check_long_edges(ids, rows)?;
    check_set(alloc, columns, names)?;
    check_beyond(rows)
}

/// Where an edge stands among edges with their rows.
fn edge_place(edge: &EdgeId, kept: &[(EdgeId, Row)]) -> Option<usize>
    ensures { result ≡ spec.edge_place edge.now kept.now }
{
    for (i, other) in kept.iter().enumerate() {
        if edge.equals(&other.0) {
            return Some(i);
        }
    }
    None
}

/// A row joins those before it: of an edge that stands there the last row counts, or, with IF NOT EXISTS, the first.
fn join(kept: &mut Vec<(EdgeId, Row)>, absent: bool, edge: EdgeId, row: Row) -> Result<(), NoMemory>
    ensures { OnOk result (kept.new.items ≡ spec.joined absent kept.old.items (edge, row)) }
{
    let Some(place) = edge_place(&edge, kept.as_slice()) else {
        kept.push((edge, row))?;
        return Ok(());
    };
    if !absent && place < kept.len() {
        kept[place] = (edge, row);
    }
    Ok(())
}

/// The edges with their rows, each once.
fn rows_once(
    alloc: Global,
    place: usize,
    columns: &[Column],
    words: &PutEdges,
) -> Result<Listed<(EdgeId, Row)>, NoMemory>
    requires { place < most_entries }
    ensures { IfOk result (λ rows. rows ≡ spec.once words.now.absent (spec.edge_rows place columns.now words.now.columns words.now.rows)) }
{
    let mut kept = Vec::new(alloc);
    let names = words.columns.as_slice();
    for row in words.rows.as_slice() {
        let made = row_of(alloc, columns, names, row.values.list.as_slice())?;
        join(&mut kept, words.absent, edge_of(place, &row.ends), made)?;
    }
    Ok(Listed::from_vec(kept))
}

/// One call for all edges, each of them once, and none where there is no edge.
#[tactic(auto, unfolding(crate::specs::Puts::edge_calls))]
pub fn edge_calls(
    alloc: Global,
    place: usize,
    columns: &[Column],
    words: &PutEdges,
) -> Result<Ops, NoMemory>
    requires place { place < most_entries }
    requires few { spec.edge_beyond words.now.rows ≡ None }
    ensures { IfOk result (λ calls. calls ≡ spec.edge_calls place columns.now words.now) }
{
    let kept = rows_once(alloc, place, columns, words)?;
    let mut calls = Listed::new(alloc);
    if kept.len() < 1 {
        return Ok(calls);
    }
    calls.push(Op::PutEdges(EdgeRows::new(kept), words.absent))?;
    Ok(calls)
}
