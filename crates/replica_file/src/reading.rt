//! Reading the body of a record.
ghost use Rattle.std.specs.Prelude.{◌≡◌, ◌<◌, ◌^◌, true, length, IfOk};
ghost use Rattle.byte_fields.specs.Reading.{Gives, many_at};
ghost use Rattle.raft_log.specs.Config.{AreEntries};
ghost use Rattle.replica_file.specs.Grammar.{payload_of, may_stand, all_may, own_entry_at, record_in};
ghost use Rattle.replica_file.specs.Seen.{record_of};

use crate::payloads::Payloads;
use byte_fields::{Misfit, ReadRefused, read_u32, read_u64};
use lists::NoMemory;
use raft_log::{Entry, Item};
use std::alloc::Global;
use wal_frames::read_entry;

/// The version of the files.
pub const FILE_VERSION: u8 = 2;

/// A record as it was read. Its entries stand in a vector, from which a log takes them.
#[derive(Drop)]
pub(crate) struct LogRecord {
    pub(crate) term: u64,
    pub(crate) vote: u32,
    pub(crate) keep: u64,
    pub(crate) entries: Vec<Entry>,
}

// Whether an entry may stand in the log.
fn may_stand<P: Payloads>(alloc: Global, payloads: &P, entry: &Entry) -> Result<bool, NoMemory>
    ensures { IfOk result (λ may. may ≡ may_stand (P.allowed payloads.now) entry.now) }
{
    match &entry.item {
        Item::Payload(bytes) => payloads.allows(alloc, bytes.as_slice()),
        _ => Ok(true),
    }
}

// The number of bytes of a payload.
fn payload_len(item: &Item) -> usize
    ensures count { result ≡ length (payload_of item.now) }
    ensures fits { result < 2 ^ 63 }
{
    match item {
        Item::Payload(bytes) => bytes.as_slice().len(),
        _ => 0,
    }
}

// An entry that may stand in the log, and the bytes after it.
#[tactic(auto, unfolding(crate::specs::Grammar::own_entry_at))]
fn read_own_entry<'a, P: Payloads>(
    alloc: Global,
    bytes: &'a [u8],
    payloads: &P,
) -> Result<(Entry, &'a [u8]), ReadRefused>
    ensures { Gives (λ x. (x.0, x.1.now)) result (own_entry_at (P.allowed payloads.now) bytes.now) }
{
    let (entry, rest) = read_entry(alloc, bytes)?;
    if !may_stand(alloc, payloads, &entry)? {
        return Err(ReadRefused::Misfit(Misfit {
            left: payload_len(&entry.item) + rest.len(),
        }));
    }
    Ok((entry, rest))
}

// `count` entries that may stand there, and the bytes after them.
fn read_own_entries<'a, P: Payloads>(
    alloc: Global,
    bytes: &'a [u8],
    count: u32,
    payloads: &P,
) -> Result<(Vec<Entry>, &'a [u8]), ReadRefused>
    ensures { Gives (λ x. (x.0.items, x.1.now)) result (many_at (own_entry_at (P.allowed payloads.now)) count bytes.now) }
{
    let mut entries = Vec::new(alloc);
    let mut rest = bytes;
    for _ in 0..count {
        let (entry, after) = read_own_entry(alloc, rest, payloads)?;
        match entries.push(entry) {
            Ok(()) => {}
            Err(_) => return Err(ReadRefused::NoMemory),
        }
        rest = after;
    }
    Ok((entries, rest))
}

// The record that all of a body is.
#[tactic(auto, unfolding(crate::specs::Grammar::record_at, byte_fields::specs::Reading::whole))]
fn read_fields<P: Payloads>(
    alloc: Global,
    body: &[u8],
    payloads: &P,
) -> Result<LogRecord, ReadRefused>
    ensures { Gives record_of result (record_in (P.allowed payloads.now) body.now) }
{
    let (term, rest) = read_u64(body)?;
    let (vote, rest) = read_u32(rest)?;
    let (keep, rest) = read_u64(rest)?;
    let (count, rest) = read_u32(rest)?;
    let (entries, rest) = read_own_entries(alloc, rest, count, payloads)?;
    if !rest.is_empty() {
        return Err(ReadRefused::Misfit(Misfit::at(rest)));
    }
    Ok(LogRecord {
        term,
        vote,
        keep,
        entries,
    })
}

/// The record that all of a body is. Refused at the first field that doesn't fit, or for want of memory.
pub(crate) fn read_record<P: Payloads>(
    alloc: Global,
    body: &[u8],
    payloads: &P,
) -> Result<LogRecord, ReadRefused>
    ensures read { Gives record_of result (record_in (P.allowed payloads.now) body.now) }
    // What holds of each record that is read.
    ensures items { IfOk result (λ r. AreEntries r.entries.items) }
    ensures own { IfOk result (λ r. all_may (P.allowed payloads.now) r.entries.items ≡ true) }
{
    read_fields(alloc, body, payloads)
}
