//! Lists of edges, with halves and without: 1 to 64 edges, no edge twice.
ghost use Rattle.std.specs.Prelude.{◌≡◌, ◌++◌, [], OnOk};
ghost use Rattle.std.specs.List.{flat_map, list_any, AllByRecursion};
ghost use Rattle.byte_fields.specs.Reading.{Reads, Gives};
ghost use Rattle.maps.specs.Keys.{has_key};
ghost use Rattle.std.specs.Ordering.{eq_by_cmp};
ghost use Rattle.graph_model.specs.Keys.{edge_cmp};
ghost use Rattle.graph_model.specs.Edges.{edges_in};
ghost use Rattle.graph_bytes.specs.Spelling.{edge, edges, edge_half, halves};
ghost use Rattle.graph_bytes.specs.Fits.{HasSpellingEdge, HasSpellingEdges, HasSpellingWhole, HasSpellingHalves, FitsEdge, FitsEdges, FitsEdgeHalf, FitsHalves};
ghost use Rattle.graph_bytes.specs.Reading.{new_edge_at, new_edges_at, edges_at, new_half_at, new_halves_at, halves_at};

use crate::edges::{put_edge, read_edge};
use crate::id_form::IdForm;
use crate::values::{put_half, read_half};
use byte_fields::{Misfit, ReadRefused, Writer, read_count};
use graph_model::{EdgeHalves, EdgeId, Edges, Half, Halves, MOST_EDGES};
use lists::{Listed, NoMemory};
use std::alloc::Global;
use std::cmp::Ordering;

// Whether two edges are the same.
fn is_same_edge(e: &EdgeId, other: &EdgeId) -> bool
    ensures { result ≡ eq_by_cmp edge_cmp e.now other.now }
{
    e.cmp(other) == Ordering::Equal
}

// Whether the edge is among these.
fn is_edge_among(e: &EdgeId, known: &[EdgeId]) -> bool
    ensures { result ≡ has_key edge_cmp e.now known.now }
{
    for other in known {
        if is_same_edge(e, other) {
            return true;
        }
    }
    false
}

// Whether the edge is that of one of these.
fn is_edge_of_any(e: &EdgeId, known: &[(EdgeId, Half)]) -> bool
    ensures { result ≡ list_any (λ x. eq_by_cmp edge_cmp e.now x.0) known.now }
{
    for item in known {
        if is_same_edge(e, &item.0) {
            return true;
        }
    }
    false
}

// Whether the edge is among the edges of these.
fn is_among(e: &EdgeId, known: &[(EdgeId, Half)]) -> bool
    ensures { result ≡ has_key edge_cmp e.now (edges_in known.now) }
{
    is_edge_of_any(e, known)
}

#[tactic(auto, unfolding(crate::specs::Reading::new_edge_at, byte_fields::specs::Reading::such_at))]
fn read_new_edge<'a>(
    bytes: &'a [u8],
    form: IdForm,
    known: &[EdgeId],
) -> Result<(EdgeId, &'a [u8]), Misfit>
    ensures { Reads (λ x. (x.0, x.1.now)) result (new_edge_at form known.now bytes.now) }
{
    let (e, rest) = match read_edge(bytes, form) {
        Ok(found) => found,
        Err(misfit) => return Err(misfit),
    };
    if is_edge_among(&e, known) {
        return Err(Misfit::at(bytes));
    }
    Ok((e, rest))
}

fn read_new_edges(
    alloc: Global,
    bytes: &[u8],
    form: IdForm,
    count: u8,
) -> Result<(Listed<EdgeId>, &[u8]), ReadRefused>
    ensures { Gives (λ x. (x.0, x.1.now)) result (new_edges_at form count [] bytes.now) }
{
    let mut list = Listed::new(alloc);
    let mut rest = bytes;
    for _ in 0..count {
        let (e, after) = match read_new_edge(rest, form, list.as_slice()) {
            Ok(found) => found,
            Err(misfit) => return Err(ReadRefused::Misfit(misfit)),
        };
        list.push(e)?;
        rest = after;
    }
    Ok((list, rest))
}

/// Edges behind their count, and the bytes after them. Refused at the first field that doesn't fit, which may be an edge
/// that stands already, or for want of memory.
#[tactic(auto, unfolding(crate::specs::Reading::edges_at, byte_fields::specs::Reading::counted_at))]
pub fn read_edges(alloc: Global, bytes: &[u8], form: IdForm) -> Result<(Edges, &[u8]), ReadRefused>
    ensures { Gives (λ x. (x.0, x.1.now)) result (edges_at form bytes.now) }
{
    let (count, rest) = read_count(bytes, 1, MOST_EDGES as u8)?;
    let (list, rest) = read_new_edges(alloc, rest, form, count)?;
    Ok((Edges::new(list), rest))
}

// An edge that isn't among those of these.
#[tactic(auto, unfolding(crate::specs::Reading::new_edge_at, byte_fields::specs::Reading::such_at))]
fn read_further_edge<'a>(
    bytes: &'a [u8],
    form: IdForm,
    known: &[(EdgeId, Half)],
) -> Result<(EdgeId, &'a [u8]), Misfit>
    ensures { Reads (λ x. (x.0, x.1.now)) result (new_edge_at form (edges_in known.now) bytes.now) }
{
    let (e, rest) = match read_edge(bytes, form) {
        Ok(found) => found,
        Err(misfit) => return Err(misfit),
    };
    if is_among(&e, known) {
        return Err(Misfit::at(bytes));
    }
    Ok((e, rest))
}

#[tactic(auto, unfolding(crate::specs::Reading::new_half_at, byte_fields::specs::Reading::both_at))]
fn read_new_half<'a>(
    alloc: Global,
    bytes: &'a [u8],
    form: IdForm,
    known: &[(EdgeId, Half)],
) -> Result<((EdgeId, Half), &'a [u8]), ReadRefused>
    ensures { Gives (λ x. (x.0, x.1.now)) result (new_half_at form known.now bytes.now) }
{
    let (e, rest) = match read_further_edge(bytes, form, known) {
        Ok(found) => found,
        Err(misfit) => return Err(ReadRefused::Misfit(misfit)),
    };
    let (half, rest) = read_half(alloc, rest)?;
    Ok(((e, half), rest))
}

fn read_new_halves(
    alloc: Global,
    bytes: &[u8],
    form: IdForm,
    count: u8,
) -> Result<(Halves, &[u8]), ReadRefused>
    ensures { Gives (λ x. (x.0, x.1.now)) result (new_halves_at form count [] bytes.now) }
{
    let mut list = Listed::new(alloc);
    let mut rest = bytes;
    for _ in 0..count {
        let (item, after) = match read_new_half(alloc, rest, form, list.as_slice()) {
            Ok(found) => found,
            Err(refused) => return Err(refused),
        };
        list.push(item)?;
        rest = after;
    }
    Ok((list, rest))
}

/// Edges with their halves, behind their count, and the bytes after them. Refused at the first field that doesn't fit,
/// which may be an edge that stands already, or for want of memory.
#[tactic(auto, unfolding(crate::specs::Reading::halves_at, byte_fields::specs::Reading::counted_at))]
pub fn read_halves(
    alloc: Global,
    bytes: &[u8],
    form: IdForm,
) -> Result<(EdgeHalves, &[u8]), ReadRefused>
    ensures { Gives (λ x. (x.0, x.1.now)) result (halves_at form bytes.now) }
{
    let (count, rest) = read_count(bytes, 1, MOST_EDGES as u8)?;
    let (list, rest) = read_new_halves(alloc, rest, form, count)?;
    Ok((EdgeHalves::new(list), rest))
}

fn put_each_edge(out: &mut Writer, list: &[EdgeId], form: IdForm) -> Result<(), NoMemory>
    requires { AllByRecursion (HasSpellingEdge form) list.now }
    ensures ok { OnOk result (out.new ≡ out.old ++ flat_map (edge form) list.now) }
    ensures fits { OnOk result (AllByRecursion (FitsEdge form) list.now) }
{
    for e in list {
        put_edge(out, e, form)?;
    }
    Ok(())
}

/// Puts edges behind their count. After a refusal, which comes for want of memory alone, some of its fields may stand.
pub fn put_edges(out: &mut Writer, list: &Edges, form: IdForm) -> Result<(), NoMemory>
    requires { HasSpellingEdges form list.now }
    ensures ok { OnOk result (out.new ≡ out.old ++ edges form list.now) }
    ensures fits { OnOk result (FitsEdges form list.now) }
{
    out.put_byte(list.len() as u8)?;
    put_each_edge(out, list.as_slice(), form)
}

fn put_each_half(out: &mut Writer, list: &[(EdgeId, Half)], form: IdForm) -> Result<(), NoMemory>
    requires { AllByRecursion (HasSpellingWhole form) list.now }
    ensures ok { OnOk result (out.new ≡ out.old ++ flat_map (edge_half form) list.now) }
    ensures fits { OnOk result (AllByRecursion (FitsEdgeHalf form) list.now) }
{
    for item in list {
        put_edge(out, &item.0, form)?;
        put_half(out, &item.1)?;
    }
    Ok(())
}

/// Puts edges with their halves, behind their count. After a refusal, which comes for want of memory alone, some of its
/// fields may stand.
pub fn put_halves(out: &mut Writer, list: &EdgeHalves, form: IdForm) -> Result<(), NoMemory>
    requires { HasSpellingHalves form list.now }
    ensures ok { OnOk result (out.new ≡ out.old ++ halves form list.now) }
    ensures fits { OnOk result (FitsHalves form list.now) }
{
    out.put_byte(list.len() as u8)?;
    put_each_half(out, list.as_slice(), form)
}
