//! The ids of vertices that a statement names.
ghost use Rattle.std.specs.Prelude.{◌≡◌, ◌<◌};
ghost use Rattle.schema_book.specs.Entries.{most_entries};
ghost use Rattle.schema_book.specs.Ids as spec;
ghost use Rattle.schema_book.specs.Refusals.{Passes};

use crate::refused::{BookRefused, Stop};
use graph_model::{EdgeId, Name, Val, Vid};
use lists::Listed;
use ngql_syntax::{Ends, Lit};
use part_keys::VidKind;
use std::alloc::Global;

/// The greatest number of bytes of a text id in any space.
const MOST_BYTES: usize = 32;

/// Whether the value is an id of the kind, however long.
fn is_vid(ids: VidKind, value: &Val) -> bool
    ensures { result ≡ spec.is_vid ids value.now }
{
    match (ids, value) {
        (VidKind::Num, Val::Int(_)) => true,
        (VidKind::Name(_), Val::Words(_)) => true,
        _ => false,
    }
}

/// Whether a text id has more bytes than the kind takes.
fn is_long(ids: VidKind, value: &Val) -> bool
    ensures { result ≡ spec.is_long ids value.now }
{
    match (ids, value) {
        (VidKind::Name(most), Val::Words(text)) => (most as usize).min(MOST_BYTES) < text.len(),
        _ => false,
    }
}

/// The id that the value is.
#[tactic(auto, using(std::proofs::lemmas::List::take_min))]
pub fn vid_of(value: &Val) -> Vid
    ensures { result ≡ spec.vid_of value.now }
{
    match value {
        Val::Int(number) => Vid::Num(*number),
        Val::Words(text) => {
            let bytes = text.as_slice();
            let len = MOST_BYTES.min(bytes.len());
            Vid::Name(Name::new(&bytes[..len]))
        }
        _ => Vid::Num(0),
    }
}

/// The edge between two ends, of the type at a place.
pub fn edge_of(place: usize, ends: &Ends) -> EdgeId
    requires { place < most_entries }
    ensures { result ≡ spec.edge_of place ends.now }
{
    EdgeId {
        src: vid_of(&ends.src.val),
        etype: place as i32 + 1,
        rank: ends.rank,
        dst: vid_of(&ends.dst.val),
    }
}

/// Refuses an id of the other kind.
pub fn check_vid(alloc: Global, ids: VidKind, lit: &Lit) -> Result<(), Stop>
    ensures { Passes result (spec.wrong_vid ids lit.now) }
{
    if is_vid(ids, &lit.val) {
        return Ok(());
    }
    let name = Listed::from_slice(alloc, b"vid")?;
    Err(Stop::Refused(BookRefused::WrongType(name)))
}

/// Refuses ends of the other kind.
pub fn check_ends(alloc: Global, ids: VidKind, ends: &Ends) -> Result<(), Stop>
    ensures { Passes result (spec.wrong_ends ids ends.now) }
{
    check_vid(alloc, ids, &ends.src)?;
    check_vid(alloc, ids, &ends.dst)
}

/// Refuses an id that is too long.
pub fn check_long(ids: VidKind, lit: &Lit) -> Result<(), Stop>
    ensures { Passes result (spec.long_vid ids lit.now) }
{
    if is_long(ids, &lit.val) {
        return Err(Stop::Refused(BookRefused::LongId(lit.at)));
    }
    Ok(())
}

/// Refuses ends that are too long.
pub fn check_long_ends(ids: VidKind, ends: &Ends) -> Result<(), Stop>
    ensures { Passes result (spec.long_ends ids ends.now) }
{
    check_long(ids, &ends.src)?;
    check_long(ids, &ends.dst)
}
