//! Writing and reading entries.
ghost use Rattle.std.specs.Prelude.{◌≡◌, ◌++◌, List, ℕ, length, IfOk, OnOk};
ghost use Rattle.byte_fields.specs.Reading.{Reads, Gives, whole, ReadsAll, Answers};
ghost use Rattle.byte_fields.specs.Versions.{IsVersion};
ghost use Rattle.graph_bytes.specs.declared.id_form.IdForm.{IdForm};
ghost use Rattle.graph_bytes.specs.Fits.{IsSmall};
ghost use Rattle.part_keys.specs.declared.entry.PartEntry.{PartEntry};
ghost use Rattle.part_keys.specs.Spelling.{form_of, sent, change, entry};
ghost use Rattle.part_keys.specs.Fits.{HasSpelling, HasSpellingChange, FitsSent, FitsChange, Fits};
ghost use Rattle.part_keys.specs.Reading.{sent_at, change_at, entry_at, place};

use crate::entry::PartEntry;
use crate::entry_kinds::{
    ABORT_ENTRY, CLOSE_ENTRY, DELETE_CHANGE, DOUBLE_ENTRY, FENCE_ENTRY, LOCAL_ENTRY, PRIME_ENTRY,
    PUT_CHANGE, READ_ENTRY, REMOTE_ENTRY, VERTEX_ENTRY,
};
use crate::refused::EntryRefused;
use crate::room::entry_room;
use byte_fields::{Misfit, ReadRefused, Writer, read_flag, read_id, read_u64};
use graph_bytes::{
    IdForm, MOST_SMALL, put_call, put_edges, put_halves, put_query, put_row, put_vid, read_call,
    read_edges, read_halves, read_query, read_row, read_tag, read_vid,
};
use graph_model::Op;
use lists::{Bytes, NoMemory};
use std::alloc::Global;

// The form of ids of a version.
fn form_of_version(version: u8) -> IdForm
    ensures { result ≡ form_of version }
{
    if version == 1 {
        IdForm::Bare
    } else {
        IdForm::Tagged
    }
}

// A part, a term of it, and the number of a chain.
#[tactic(auto, unfolding(crate::specs::Reading::sent_at, byte_fields::specs::Reading::both_at))]
fn read_sent(bytes: &[u8]) -> Result<(((u32, u64), u64), &[u8]), Misfit>
    ensures { Reads (λ x. (x.0, x.1.now)) result (sent_at bytes.now) }
{
    let (source, rest) = read_id(bytes, 0, MOST_SMALL)?;
    let (term, rest) = read_u64(rest)?;
    let (v, rest) = read_u64(rest)?;
    Ok((((source, term), v), rest))
}

#[tactic(auto, unfolding(crate::specs::Reading::change_at, byte_fields::specs::Reading::byte_at, byte_fields::specs::Reading::made_at, byte_fields::specs::Reading::both_at))]
fn read_change(alloc: Global, bytes: &[u8], form: IdForm) -> Result<(Op, &[u8]), ReadRefused>
    ensures { Gives (λ x. (x.0, x.1.now)) result (change_at form bytes.now) }
{
    match bytes {
        [PUT_CHANGE, rest @ ..] => {
            let ((v, tag), rest) = match read_tag(rest, form) {
                Ok(found) => found,
                Err(misfit) => return Err(ReadRefused::Misfit(misfit)),
            };
            let (absent, rest) = read_flag(rest)?;
            let (vals, rest) = read_row(alloc, rest)?;
            Ok((Op::PutVertex(v, tag, vals, absent), rest))
        }
        [DELETE_CHANGE, rest @ ..] => {
            let (v, rest) = match read_vid(rest, form) {
                Ok(found) => found,
                Err(misfit) => return Err(ReadRefused::Misfit(misfit)),
            };
            Ok((Op::DelVertex(v), rest))
        }
        _ => Err(Misfit::at(bytes).into()),
    }
}

/// An entry, and the bytes after it. Refused at the first field that doesn't fit, or for want of memory.
#[tactic(auto, unfolding(crate::specs::Reading::entry_at, byte_fields::specs::Reading::byte_at, byte_fields::specs::Reading::made_at, byte_fields::specs::Reading::both_at))]
pub fn read_entry_front(
    alloc: Global,
    bytes: &[u8],
    form: IdForm,
) -> Result<(PartEntry, &[u8]), ReadRefused>
    ensures { Gives (λ x. (x.0, x.1.now)) result (entry_at form bytes.now) }
{
    match bytes {
        [PRIME_ENTRY, rest @ ..] => {
            let (id, rest) = read_call(rest)?;
            let (absent, rest) = read_flag(rest)?;
            let (list, rest) = read_halves(alloc, rest, form)?;
            Ok((PartEntry::Prime(id, list, absent), rest))
        }
        [LOCAL_ENTRY, rest @ ..] => {
            let (v, rest) = read_u64(rest)?;
            Ok((PartEntry::Local(v), rest))
        }
        [DOUBLE_ENTRY, rest @ ..] => {
            let (v, rest) = read_u64(rest)?;
            Ok((PartEntry::Double(v), rest))
        }
        [CLOSE_ENTRY, rest @ ..] => {
            let (v, rest) = read_u64(rest)?;
            Ok((PartEntry::Close(v), rest))
        }
        [ABORT_ENTRY, rest @ ..] => {
            let (v, rest) = read_u64(rest)?;
            Ok((PartEntry::Abort(v), rest))
        }
        [REMOTE_ENTRY, rest @ ..] => {
            let (((source, term), v), rest) = read_sent(rest)?;
            let (list, rest) = read_halves(alloc, rest, form)?;
            Ok((PartEntry::Remote(source, term, v, list), rest))
        }
        [FENCE_ENTRY, rest @ ..] => {
            let (((source, term), v), rest) = read_sent(rest)?;
            let (list, rest) = read_edges(alloc, rest, form)?;
            Ok((PartEntry::Fence(source, term, v, list), rest))
        }
        [VERTEX_ENTRY, rest @ ..] => {
            let (id, rest) = read_call(rest)?;
            let (made, rest) = match read_change(alloc, rest, form) {
                Ok(found) => found,
                Err(refused) => return Err(refused),
            };
            Ok((PartEntry::Vertex(id, made), rest))
        }
        [READ_ENTRY, rest @ ..] => {
            let (id, rest) = read_call(rest)?;
            let (query, rest) = match read_query(alloc, rest, form) {
                Ok(found) => found,
                Err(refused) => return Err(refused),
            };
            Ok((PartEntry::Read(id, query), rest))
        }
        _ => Err(Misfit::at(bytes).into()),
    }
}

#[tactic(auto, unfolding(byte_fields::specs::Reading::whole))]
fn read_whole(alloc: Global, bytes: &[u8], form: IdForm) -> Result<PartEntry, ReadRefused>
    ensures { Gives (λ e. e) result (whole (entry_at form) bytes.now) }
{
    let (found, rest) = match read_entry_front(alloc, bytes, form) {
        Ok(found) => found,
        Err(refused) => return Err(refused),
    };
    if !rest.is_empty() {
        return Err(ReadRefused::Misfit(Misfit::at(rest)));
    }
    Ok(found)
}

fn answered(alloc: Global, bytes: &[u8], form: IdForm) -> Result<PartEntry, EntryRefused>
    ensures { ReadsAll place (length bytes.now) result (whole (entry_at form) bytes.now) }
{
    match read_whole(alloc, bytes, form) {
        Ok(found) => Ok(found),
        Err(ReadRefused::Misfit(misfit)) => {
            Err(EntryRefused::BadPacket((bytes.len() - misfit.left) as u64))
        }
        Err(ReadRefused::NoMemory) => Err(EntryRefused::NoMemory),
    }
}

/// The entry that the bytes spell in this version, all of the bytes. Refused as `BadPacket` exactly where they spell
/// none, at the first field that doesn't fit; of an edge that stands twice that is the second.
pub fn read_entry(alloc: Global, b: &[u8], version: u8) -> Result<PartEntry, EntryRefused>
    requires { IsVersion version }
    // What is read is spelled so.
    ensures found { IfOk result (λ e. Fits (form_of version) e × (b.now ≡ entry (form_of version) e)) }
    // What is spelled so is read, unless memory runs out.
    ensures only { (e : PartEntry) → Fits (form_of version) e → b.now ≡ entry (form_of version) e → Answers place e result }
    // At which place it is refused.
    ensures exact { ReadsAll place (length b.now) result (whole (entry_at (form_of version)) b.now) }
{
    answered(alloc, b, form_of_version(version))
}

// Puts a part, a term of it, and the number of a chain.
fn put_sent(out: &mut Writer, source: u32, term: u64, v: u64) -> Result<(), NoMemory>
    requires { IsSmall source }
    ensures ok { OnOk result (out.new ≡ out.old ++ sent source term v) }
    ensures fits { OnOk result (FitsSent source term v) }
{
    out.put_u32(source)?;
    out.put_u64(term)?;
    out.put_u64(v)
}

fn put_change(out: &mut Writer, made: &Op, form: IdForm) -> Result<(), NoMemory>
    requires { HasSpellingChange form made.now }
    ensures ok { OnOk result (out.new ≡ out.old ++ change form made.now) }
    ensures fits { OnOk result (FitsChange form made.now) }
{
    match made {
        Op::PutVertex(v, tag, vals, absent) => {
            out.put_byte(PUT_CHANGE)?;
            put_vid(out, v, form)?;
            out.put_u32(*tag)?;
            out.put_flag(*absent)?;
            put_row(out, vals)
        }
        Op::DelVertex(v) => {
            out.put_byte(DELETE_CHANGE)?;
            put_vid(out, v, form)
        }
        Op::PutEdges(..) | Op::DelEdges(_) | Op::Read(_) => unreachable!(),
    }
}

/// Puts an entry. After a refusal, which comes for want of memory alone, some of its fields may stand.
pub fn put_entry(out: &mut Writer, made: &PartEntry, form: IdForm) -> Result<(), NoMemory>
    requires { HasSpelling form made.now }
    ensures ok { OnOk result (out.new ≡ out.old ++ entry form made.now) }
    ensures fits { OnOk result (Fits form made.now) }
{
    match made {
        PartEntry::Prime(id, list, absent) => {
            out.put_byte(PRIME_ENTRY)?;
            put_call(out, id)?;
            out.put_flag(*absent)?;
            put_halves(out, list, form)
        }
        PartEntry::Local(v) => {
            out.put_byte(LOCAL_ENTRY)?;
            out.put_u64(*v)
        }
        PartEntry::Double(v) => {
            out.put_byte(DOUBLE_ENTRY)?;
            out.put_u64(*v)
        }
        PartEntry::Close(v) => {
            out.put_byte(CLOSE_ENTRY)?;
            out.put_u64(*v)
        }
        PartEntry::Abort(v) => {
            out.put_byte(ABORT_ENTRY)?;
            out.put_u64(*v)
        }
        PartEntry::Remote(source, term, v, list) => {
            out.put_byte(REMOTE_ENTRY)?;
            put_sent(out, *source, *term, *v)?;
            put_halves(out, list, form)
        }
        PartEntry::Fence(source, term, v, list) => {
            out.put_byte(FENCE_ENTRY)?;
            put_sent(out, *source, *term, *v)?;
            put_edges(out, list, form)
        }
        PartEntry::Vertex(id, change) => {
            out.put_byte(VERTEX_ENTRY)?;
            put_call(out, id)?;
            put_change(out, change, form)
        }
        PartEntry::Read(id, query) => {
            out.put_byte(READ_ENTRY)?;
            put_call(out, id)?;
            put_query(out, query, form)
        }
    }
}

/// The entry's one spelling in this version; in version 1 each id is a number. Refused for want of memory alone; an entry
/// that was written is one that `read_entry` reads again.
pub fn write_entry(alloc: Global, e: &PartEntry, version: u8) -> Result<Bytes, NoMemory>
    requires is { IsVersion version }
    requires spelled { HasSpelling (form_of version) e.now }
    ensures ok { IfOk result (λ bytes. bytes ≡ entry (form_of version) e.now) }
    ensures fits { OnOk result (Fits (form_of version) e.now) }
{
    let mut out = Writer::with_room(alloc, entry_room(e))?;
    put_entry(&mut out, e, form_of_version(version))?;
    Ok(out.into_bytes())
}

/// An entry has one spelling in each version, and no entry's spelling begins another's.
pub fn one_spelling()
    ensures { (form : IdForm) (e f : PartEntry) (a b : List ℕ) → Fits form e → Fits form f → entry form e ++ a ≡ entry form f ++ b → (e ≡ f) × (a ≡ b) }
{}
