//! Rows of answers.
ghost use Rattle.std.specs.Prelude.{◌≡◌, ◌++◌, OnOk};
ghost use Rattle.std.specs.List.{flat_map, AllByRecursion};
ghost use Rattle.byte_fields.specs.Reading.{Gives, many_at};
ghost use Rattle.graph_bytes.specs.Spelling.{found, view};
ghost use Rattle.graph_bytes.specs.Fits.{HasSpellingFound, HasSpellingView, FitsFound, FitsView};
ghost use Rattle.graph_bytes.specs.Reading.{found_at, view_at};

use crate::edges::{put_edge, read_edge};
use crate::id_form::IdForm;
use crate::kinds::{EDGE_FOUND, TAG_FOUND};
use crate::values::{put_row, read_row};
use byte_fields::{Misfit, ReadRefused, Writer, read_flag, read_u32};
use graph_model::{Found, View};
use lists::{Listed, NoMemory};
use std::alloc::Global;

/// A row of an answer, and the bytes after it. Refused at the first field that doesn't fit, or for want of memory.
#[tactic(auto, unfolding(crate::specs::Reading::found_at, byte_fields::specs::Reading::byte_at, byte_fields::specs::Reading::made_at, byte_fields::specs::Reading::both_at))]
pub fn read_found(alloc: Global, bytes: &[u8], form: IdForm) -> Result<(Found, &[u8]), ReadRefused>
    ensures { Gives (λ x. (x.0, x.1.now)) result (found_at form bytes.now) }
{
    match bytes {
        [TAG_FOUND, rest @ ..] => {
            let (row, rest) = read_row(alloc, rest)?;
            let found = Found {
                edge: None,
                inward: false,
                row,
            };
            Ok((found, rest))
        }
        [EDGE_FOUND, rest @ ..] => {
            let (inward, rest) = read_flag(rest)?;
            let (edge, rest) = match read_edge(rest, form) {
                Ok(found) => found,
                Err(misfit) => return Err(ReadRefused::Misfit(misfit)),
            };
            let (row, rest) = read_row(alloc, rest)?;
            let found = Found {
                edge: Some(edge),
                inward,
                row,
            };
            Ok((found, rest))
        }
        _ => Err(Misfit::at(bytes).into()),
    }
}

fn read_each(
    alloc: Global,
    bytes: &[u8],
    form: IdForm,
    count: u32,
) -> Result<(View, &[u8]), ReadRefused>
    ensures { Gives (λ x. (x.0, x.1.now)) result (many_at (found_at form) count bytes.now) }
{
    let mut list = Listed::new(alloc);
    let mut rest = bytes;
    for _ in 0..count {
        let (found, after) = match read_found(alloc, rest, form) {
            Ok(found) => found,
            Err(refused) => return Err(refused),
        };
        list.push(found)?;
        rest = after;
    }
    Ok((list, rest))
}

/// The rows of an answer behind their count, and the bytes after them. Refused at the first field that doesn't fit, or
/// for want of memory.
#[tactic(auto, unfolding(crate::specs::Reading::view_at, byte_fields::specs::Reading::counted_at))]
pub fn read_view(alloc: Global, bytes: &[u8], form: IdForm) -> Result<(View, &[u8]), ReadRefused>
    ensures { Gives (λ x. (x.0, x.1.now)) result (view_at form bytes.now) }
{
    let (count, rest) = read_u32(bytes)?;
    read_each(alloc, rest, form, count)
}

/// Puts a row of an answer. After a refusal, which comes for want of memory alone, some of its fields may stand.
pub fn put_found(out: &mut Writer, of: &Found, form: IdForm) -> Result<(), NoMemory>
    requires { HasSpellingFound form of.now }
    ensures ok { OnOk result (out.new ≡ out.old ++ found form of.now) }
    ensures fits { OnOk result (FitsFound form of.now) }
{
    match &of.edge {
        None => {
            out.put_byte(TAG_FOUND)?;
            put_row(out, &of.row)
        }
        Some(edge) => {
            out.put_byte(EDGE_FOUND)?;
            out.put_flag(of.inward)?;
            put_edge(out, edge, form)?;
            put_row(out, &of.row)
        }
    }
}

fn put_each(out: &mut Writer, list: &[Found], form: IdForm) -> Result<(), NoMemory>
    requires { AllByRecursion (HasSpellingFound form) list.now }
    ensures ok { OnOk result (out.new ≡ out.old ++ flat_map (found form) list.now) }
    ensures fits { OnOk result (AllByRecursion (FitsFound form) list.now) }
{
    for of in list {
        put_found(out, of, form)?;
    }
    Ok(())
}

/// Puts the rows of an answer behind their count. After a refusal, which comes for want of memory and for 2^32 rows or
/// more, some of its fields may stand.
pub fn put_view(out: &mut Writer, list: &View, form: IdForm) -> Result<(), NoMemory>
    requires { HasSpellingView form list.now }
    ensures ok { OnOk result (out.new ≡ out.old ++ view form list.now) }
    ensures fits { OnOk result (FitsView form list.now) }
{
    if list.len() > u32::MAX as usize {
        return Err(NoMemory);
    }
    out.put_u32(list.len() as u32)?;
    put_each(out, list.as_slice(), form)
}
