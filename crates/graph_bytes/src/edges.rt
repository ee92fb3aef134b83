//! Edges and calls.
ghost use Rattle.std.specs.Prelude.{◌≡◌, ◌++◌, ◌<ℤ◌, IfOk, OnOk, FitsSigned};
ghost use Rattle.std.specs.Int.{w32, w64};
ghost use Rattle.byte_fields.specs.Fields.{signed};
ghost use Rattle.byte_fields.specs.Reading.{Reads};
ghost use Rattle.graph_bytes.specs.Spelling.{edge, call};
ghost use Rattle.graph_bytes.specs.Fits.{IsSmall, HasSpellingEdge, FitsEdge, FitsCall};
ghost use Rattle.graph_bytes.specs.Reading.{type_at, edge_at, call_at};

use crate::id_form::IdForm;
use crate::ids::{put_vid, read_vid};
use crate::kinds::MOST_SMALL;
use byte_fields::{Misfit, Writer, read_i32, read_i64, read_id, read_u64};
use graph_model::{CallId, EdgeId};
use lists::NoMemory;

/// An edge type, and the bytes after it. Refused where it is cut short, or not above `low`.
#[tactic(auto, unfolding(crate::specs::Reading::type_at, byte_fields::specs::Reading::such_at))]
pub fn read_type<'a>(bytes: &'a [u8], low: &i32) -> Result<(i32, &'a [u8]), Misfit>
    ensures read { Reads (λ x. (x.0, x.1.now)) result (type_at low.now bytes.now) }
    ensures above { IfOk result (λ x. low.now <ℤ x.0) }
    ensures fits { IfOk result (λ x. FitsSigned w32 x.0) }
{
    let (etype, rest) = read_i32(bytes)?;
    if etype <= *low {
        return Err(Misfit::at(bytes));
    }
    Ok((etype, rest))
}

/// An edge, as source, type, rank and destination, and the bytes after it. Refused at the first of these that is cut
/// short, and at a type that isn't positive.
#[tactic(auto, unfolding(crate::specs::Reading::edge_at, byte_fields::specs::Reading::both_at, byte_fields::specs::Reading::made_at))]
pub fn read_edge(bytes: &[u8], form: IdForm) -> Result<(EdgeId, &[u8]), Misfit>
    ensures { Reads (λ x. (x.0, x.1.now)) result (edge_at form bytes.now) }
{
    let (src, rest) = match read_vid(bytes, form) {
        Ok(found) => found,
        Err(misfit) => return Err(misfit),
    };
    let (etype, rest) = read_type(rest, &0)?;
    let (rank, rest) = read_i64(rest)?;
    let (dst, rest) = match read_vid(rest, form) {
        Ok(found) => found,
        Err(misfit) => return Err(misfit),
    };
    Ok((
        EdgeId {
            src,
            etype,
            rank,
            dst,
        },
        rest,
    ))
}

/// A call, as client and number, and the bytes after it. Refused at the first of these that is cut short, and at a
/// client that isn't 1 to 64.
#[tactic(auto, unfolding(crate::specs::Reading::call_at, byte_fields::specs::Reading::both_at, byte_fields::specs::Reading::made_at))]
pub fn read_call(bytes: &[u8]) -> Result<(CallId, &[u8]), Misfit>
    ensures { Reads (λ x. (x.0, x.1.now)) result (call_at bytes.now) }
{
    let (client, rest) = read_id(bytes, 0, MOST_SMALL)?;
    let (number, rest) = read_u64(rest)?;
    Ok((CallId { client, number }, rest))
}

// Puts an edge's rank.
fn put_rank(out: &mut Writer, rank: &i64) -> Result<(), NoMemory>
    ensures ok { OnOk result (out.new ≡ out.old ++ signed w64 rank.now) }
    ensures fits { FitsSigned w64 rank.now }
{
    out.put_i64(*rank)
}

// Puts an edge's type.
fn put_type(out: &mut Writer, etype: &i32) -> Result<(), NoMemory>
    ensures ok { OnOk result (out.new ≡ out.old ++ signed w32 etype.now) }
    ensures fits { FitsSigned w32 etype.now }
{
    out.put_i32(*etype)
}

/// Puts an edge. After a refusal, which comes for want of memory alone, some of its fields may stand.
pub fn put_edge(out: &mut Writer, e: &EdgeId, form: IdForm) -> Result<(), NoMemory>
    requires { HasSpellingEdge form e.now }
    ensures ok { OnOk result (out.new ≡ out.old ++ edge form e.now) }
    ensures fits { OnOk result (FitsEdge form e.now) }
{
    put_vid(out, &e.src, form)?;
    put_type(out, &e.etype)?;
    put_rank(out, &e.rank)?;
    put_vid(out, &e.dst, form)
}

/// Puts a call. After a refusal, which comes for want of memory alone, some of its fields may stand.
pub fn put_call(out: &mut Writer, id: &CallId) -> Result<(), NoMemory>
    requires { IsSmall id.now.client }
    ensures ok { OnOk result (out.new ≡ out.old ++ call id.now) }
    ensures fits { OnOk result (FitsCall id.now) }
{
    out.put_u32(id.client)?;
    out.put_u64(id.number)
}
