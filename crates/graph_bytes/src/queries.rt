//! Queries.
ghost use Rattle.std.specs.Prelude.{◌≡◌, ◌≤◌, ◌++◌, pos, OnOk, FitsSigned};
ghost use Rattle.std.specs.Int.{w32};
ghost use Rattle.std.specs.List.{flat_map, AllByRecursion};
ghost use Rattle.byte_fields.specs.Fields.{signed};
ghost use Rattle.byte_fields.specs.Reading.{Reads, Gives};
ghost use Rattle.graph_model.specs.Types.{most_types, AreTypes};
ghost use Rattle.graph_bytes.specs.Spelling.{around, query};
ghost use Rattle.graph_bytes.specs.Fits.{HasSpellingVid, HasSpellingQuery, FitsAround, FitsQuery};
ghost use Rattle.graph_bytes.specs.Reading.{rising_types_at, types_at, around_at, tag_at, query_at};

use crate::edges::{put_edge, read_edge, read_type};
use crate::id_form::IdForm;
use crate::ids::{put_vid, read_vid};
use crate::kinds::{BOTH_QUERY, EDGE_QUERY, IN_QUERY, OUT_QUERY, TAG_QUERY};
use byte_fields::{Misfit, ReadRefused, Writer, read_count, read_u32};
use graph_model::{MOST_TYPES, Query, Types, Vid};
use lists::NoMemory;
use std::alloc::Global;

// `count` types, positive and rising.
fn read_rising(alloc: Global, bytes: &[u8], count: u8) -> Result<(Types, &[u8]), ReadRefused>
    requires { count ≤ most_types }
    ensures { Gives (λ x. (x.0, x.1.now)) result (rising_types_at count (pos 0) bytes.now) }
{
    let mut list = [0; MOST_TYPES];
    let mut rest = bytes;
    let mut last = 0;
    for i in 0..count as usize {
        let (etype, after) = read_type(rest, &last)?;
        list[i] = etype;
        rest = after;
        last = etype;
    }
    let types = Types::from_slice(alloc, &list[..count as usize])?;
    Ok((types, rest))
}

#[tactic(auto, unfolding(crate::specs::Reading::types_at, byte_fields::specs::Reading::counted_at))]
fn read_types(alloc: Global, bytes: &[u8]) -> Result<(Types, &[u8]), ReadRefused>
    ensures { Gives (λ x. (x.0, x.1.now)) result (types_at bytes.now) }
{
    let (count, rest) = read_count(bytes, 0, MOST_TYPES as u8)?;
    read_rising(alloc, rest, count)
}

#[tactic(auto, unfolding(crate::specs::Reading::around_at, byte_fields::specs::Reading::both_at))]
fn read_around(
    alloc: Global,
    bytes: &[u8],
    form: IdForm,
) -> Result<((Vid, Types), &[u8]), ReadRefused>
    ensures { Gives (λ x. (x.0, x.1.now)) result (around_at form bytes.now) }
{
    let (v, rest) = match read_vid(bytes, form) {
        Ok(found) => found,
        Err(misfit) => return Err(ReadRefused::Misfit(misfit)),
    };
    let (types, rest) = read_types(alloc, rest)?;
    Ok(((v, types), rest))
}

/// A vertex and a tag, and the bytes after them. Refused at the first of these that is cut short.
#[tactic(auto, unfolding(crate::specs::Reading::tag_at, byte_fields::specs::Reading::both_at))]
pub fn read_tag(bytes: &[u8], form: IdForm) -> Result<((Vid, u32), &[u8]), Misfit>
    ensures { Reads (λ x. (x.0, x.1.now)) result (tag_at form bytes.now) }
{
    let (v, rest) = match read_vid(bytes, form) {
        Ok(found) => found,
        Err(misfit) => return Err(misfit),
    };
    let (tag, rest) = read_u32(rest)?;
    Ok(((v, tag), rest))
}

/// A query, and the bytes after it. Refused at the first field that doesn't fit, or for want of memory.
#[tactic(auto, unfolding(crate::specs::Reading::query_at, byte_fields::specs::Reading::byte_at, byte_fields::specs::Reading::made_at))]
pub fn read_query(alloc: Global, bytes: &[u8], form: IdForm) -> Result<(Query, &[u8]), ReadRefused>
    ensures { Gives (λ x. (x.0, x.1.now)) result (query_at form bytes.now) }
{
    match bytes {
        [TAG_QUERY, rest @ ..] => {
            let ((v, tag), rest) = match read_tag(rest, form) {
                Ok(found) => found,
                Err(misfit) => return Err(ReadRefused::Misfit(misfit)),
            };
            Ok((Query::Tag(v, tag), rest))
        }
        [EDGE_QUERY, rest @ ..] => {
            let (edge, rest) = match read_edge(rest, form) {
                Ok(found) => found,
                Err(misfit) => return Err(ReadRefused::Misfit(misfit)),
            };
            Ok((Query::Edge(edge), rest))
        }
        [OUT_QUERY, rest @ ..] => {
            let ((v, types), rest) = match read_around(alloc, rest, form) {
                Ok(found) => found,
                Err(refused) => return Err(refused),
            };
            Ok((Query::Out(v, types), rest))
        }
        [IN_QUERY, rest @ ..] => {
            let ((v, types), rest) = match read_around(alloc, rest, form) {
                Ok(found) => found,
                Err(refused) => return Err(refused),
            };
            Ok((Query::In(v, types), rest))
        }
        [BOTH_QUERY, rest @ ..] => {
            let ((v, types), rest) = match read_around(alloc, rest, form) {
                Ok(found) => found,
                Err(refused) => return Err(refused),
            };
            Ok((Query::Both(v, types), rest))
        }
        _ => Err(Misfit::at(bytes).into()),
    }
}

fn put_list(out: &mut Writer, list: &[i32]) -> Result<(), NoMemory>
    ensures ok { OnOk result (out.new ≡ out.old ++ flat_map (signed w32) list.now) }
    ensures fits { OnOk result (AllByRecursion (FitsSigned w32) list.now) }
{
    for etype in list {
        out.put_i32(*etype)?;
    }
    Ok(())
}

fn put_around(out: &mut Writer, v: &Vid, list: &Types, form: IdForm) -> Result<(), NoMemory>
    requires { HasSpellingVid form v.now × AreTypes list.now }
    ensures ok { OnOk result (out.new ≡ out.old ++ around form v.now list.now) }
    ensures fits { OnOk result (FitsAround form v.now list.now) }
{
    put_vid(out, v, form)?;
    let slice = list.as_slice();
    out.put_byte(slice.len() as u8)?;
    put_list(out, slice)
}

/// Puts a query. After a refusal, which comes for want of memory alone, some of its fields may stand.
pub fn put_query(out: &mut Writer, asked: &Query, form: IdForm) -> Result<(), NoMemory>
    requires { HasSpellingQuery form asked.now }
    ensures ok { OnOk result (out.new ≡ out.old ++ query form asked.now) }
    ensures fits { OnOk result (FitsQuery form asked.now) }
{
    match asked {
        Query::Tag(v, tag) => {
            out.put_byte(TAG_QUERY)?;
            put_vid(out, v, form)?;
            out.put_u32(*tag)
        }
        Query::Edge(edge) => {
            out.put_byte(EDGE_QUERY)?;
            put_edge(out, edge, form)
        }
        Query::Out(v, types) => {
            out.put_byte(OUT_QUERY)?;
            put_around(out, v, types, form)
        }
        Query::In(v, types) => {
            out.put_byte(IN_QUERY)?;
            put_around(out, v, types, form)
        }
        Query::Both(v, types) => {
            out.put_byte(BOTH_QUERY)?;
            put_around(out, v, types, form)
        }
    }
}
