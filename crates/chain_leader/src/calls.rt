//! What a client's call is to a part: its entry, and its part.
ghost use Rattle.std.specs.Prelude.{◌≡◌, ◌<◌, IfOk, map};
ghost use Rattle.graph_model.specs.declared.half.Half.TheVariants.{Here};
ghost use Rattle.graph_model.specs.Ops.{edges_of};
ghost use Rattle.graph_model.specs.declared.op.Op.TheVariants.{PutEdges};
ghost use Rattle.std.specs.Prelude.{false};
ghost use Rattle.chain_leader.specs.Calls.{removal, entry_of, part_of_edges, part_of_op};

use graph_model::{CallId, EdgeHalves, EdgeId, EdgeRows, Edges, Half, Op, Row};
use lists::{Listed, NoMemory};
use part_keys::{PartEntry, part_of, part_of_query};
use std::alloc::Global;

/// The Prime of a removal. Refused for want of memory alone.
pub fn removal(alloc: Global, id: CallId, edges: &Edges) -> Result<PartEntry, NoMemory>
    ensures { IfOk result (λ entry. entry ≡ removal id edges.now) }
{
    let list = EdgeHalves::removed(alloc, edges)?;
    Ok(PartEntry::Prime(id, list, false))
}

/// The entry of a call. Refused for want of memory alone.
pub fn entry_of(alloc: Global, id: CallId, op: Op) -> Result<PartEntry, NoMemory>
    ensures { IfOk result (λ entry. entry ≡ entry_of id op) }
{
    match op {
        Op::PutEdges(rows, absent) => {
            let list = put(alloc, &rows)?;
            Ok(PartEntry::Prime(id, list, absent))
        }
        Op::DelEdges(edges) => {
            let entry = removal(alloc, id, &edges)?;
            Ok(entry)
        }
        Op::PutVertex(v, tag, row, absent) => Ok(PartEntry::Vertex(
            id,
            Op::PutVertex(v, tag, row, absent),
        )),
        Op::DelVertex(v) => Ok(PartEntry::Vertex(id, Op::DelVertex(v))),
        Op::Read(query) => Ok(PartEntry::Read(id, query)),
    }
}

/// The edges, each to have its row.
#[tactic(auto, using(crate::proofs::Halves::edges_put))]
fn put(alloc: Global, rows: &EdgeRows) -> Result<EdgeHalves, NoMemory>
    ensures { IfOk result (λ list. list ≡ map (λ x. (x.0, Here x.1)) rows.now) }
{
    let list = here(alloc, rows.as_slice())?;
    Ok(EdgeHalves::new(list))
}

/// Each edge with its row as a half.
fn here(alloc: Global, rows: &[(EdgeId, Row)]) -> Result<Listed<(EdgeId, Half)>, NoMemory>
    ensures { IfOk result (λ list. list ≡ map (λ x. (x.0, Here x.1)) rows.now) }
{
    let mut made = Listed::new(alloc);
    for row in rows {
        made.push((row.0, Half::Here(row.1.copy(alloc)?)))?;
    }
    Ok(made)
}

/// The part of a call: of the source of its edges, of its vertex, or of its query.
pub fn part_of_op(parts: u32, op: &Op) -> u32
    requires { 0 < parts }
    ensures { result ≡ part_of_op parts op.now }
{
    match op {
        Op::PutEdges(rows, _) => part_of_rows(parts, rows.as_slice()),
        Op::DelEdges(edges) => part_of_edges(parts, edges.as_slice()),
        Op::PutVertex(v, _, _, _) => part_of(*v, parts),
        Op::DelVertex(v) => part_of(*v, parts),
        Op::Read(query) => part_of_query(parts, query),
    }
}

fn part_of_rows(parts: u32, rows: &[(EdgeId, Row)]) -> u32
    requires { 0 < parts }
    ensures { result ≡ part_of_edges parts (edges_of (PutEdges rows.now false)) }
{
    match rows.first() {
        Some(row) => part_of(row.0.src, parts),
        None => 0,
    }
}

fn part_of_edges(parts: u32, edges: &[EdgeId]) -> u32
    requires { 0 < parts }
    ensures { result ≡ part_of_edges parts edges.now }
{
    match edges.first() {
        Some(edge) => part_of(edge.src, parts),
        None => 0,
    }
}
