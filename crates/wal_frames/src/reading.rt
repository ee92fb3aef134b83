//! Reading bodies.
ghost use Rattle.std.specs.Prelude.{◌≡◌, ◌≤◌, ◌++◌, List, ℕ, length, IfOk};
ghost use Rattle.byte_fields.specs.Reading.{Reads, Gives, ReadsAll, Answers, rising_at, many_at, whole};
ghost use Rattle.raft_log.specs.declared.record.Record.{Record};
ghost use Rattle.wal_frames.specs.Spelling.{FitsRecord, body};
ghost use Rattle.wal_frames.specs.Kinds.{most_peers};
ghost use Rattle.wal_frames.specs.Reading.{place, peer_at, peers_at, config_at, item_of, entry_at, entries_at, body_at};

use crate::kinds::{MEMBERS_ITEM, MOST_PEERS, NO_OP_ITEM, PAYLOAD_ITEM};
use crate::refused::FrameRefused;
use byte_fields::{Misfit, ReadRefused, read_byte, read_id, read_run, read_u32, read_u64};
use lists::{Bytes, Listed};
use raft_log::{Config, Entries, Entry, Item, Peers, Record};
use std::alloc::Global;

// A peer above `low` that isn't among the others.
#[tactic(auto, unfolding(crate::specs::Reading::peer_at))]
fn read_peer<'a>(bytes: &'a [u8], others: &Peers, low: u32) -> Result<(u32, &'a [u8]), Misfit>
    ensures { Reads (λ x. (x.0, x.1.now)) result (peer_at others.now low bytes.now) }
{
    let (id, rest) = read_id(bytes, low, u32::MAX)?;
    if others.contains(id) {
        return Err(Misfit::at(bytes));
    }
    Ok((id, rest))
}

// `count` peers, rising, none of them among the others.
fn read_rising<'a>(bytes: &'a [u8], others: &Peers, count: u8) -> Result<(Peers, &'a [u8]), Misfit>
    requires { count ≤ most_peers }
    ensures { Reads (λ x. (x.0, x.1.now)) result (rising_at (peer_at others.now) count 0 bytes.now) }
{
    let mut peers = Peers::new();
    let mut rest = bytes;
    let mut last = 0;
    for _ in 0..count {
        let (id, after) = read_peer(rest, others, last)?;
        peers.push(id);
        rest = after;
        last = id;
    }
    Ok((peers, rest))
}

// At most `room` peers behind their count, none of them among the others.
#[tactic(auto, unfolding(crate::specs::Reading::peers_at))]
fn read_peers<'a>(bytes: &'a [u8], others: &Peers, room: usize) -> Result<(Peers, &'a [u8]), Misfit>
    requires { room ≤ most_peers }
    ensures { Reads (λ x. (x.0, x.1.now)) result (peers_at others.now room bytes.now) }
{
    let (count, rest) = read_byte(bytes)?;
    if room < count as usize {
        return Err(Misfit::at(bytes));
    }
    read_rising(rest, others, count)
}

#[tactic(auto, unfolding(crate::specs::Reading::config_at))]
fn read_config(bytes: &[u8]) -> Result<(Config, &[u8]), Misfit>
    ensures { Reads (λ x. (x.0, x.1.now)) result (config_at bytes.now) }
{
    let (voters, rest) = read_peers(bytes, &Peers::new(), MOST_PEERS)?;
    let (learners, rest) = read_peers(rest, &voters, MOST_PEERS - voters.len())?;
    Ok((Config { voters, learners }, rest))
}

#[tactic(auto, unfolding(crate::specs::Reading::item_of, byte_fields::specs::Reading::byte_at, byte_fields::specs::Reading::whole))]
fn read_item(alloc: Global, bytes: &[u8]) -> Result<Item, ReadRefused>
    ensures { Gives (λ item. item) result (item_of bytes.now) }
{
    match bytes {
        [NO_OP_ITEM] => Ok(Item::NoOp),
        [NO_OP_ITEM, rest @ ..] => Err(Misfit::at(rest).into()),
        [MEMBERS_ITEM, rest @ ..] => {
            let (config, rest) = read_config(rest)?;
            if !rest.is_empty() {
                return Err(Misfit::at(rest).into());
            }
            Ok(Item::Members(config))
        }
        [PAYLOAD_ITEM, rest @ ..] => Ok(Item::Payload(Bytes::from_slice(alloc, rest)?)),
        _ => Err(Misfit::at(bytes).into()),
    }
}

/// An entry, and the bytes after it. Refused at the first field that doesn't fit, or for want of memory.
#[tactic(auto, unfolding(crate::specs::Reading::entry_at, byte_fields::specs::Reading::inside))]
pub fn read_entry(alloc: Global, bytes: &[u8]) -> Result<(Entry, &[u8]), ReadRefused>
    ensures { Gives (λ x. (x.0, x.1.now)) result (entry_at bytes.now) }
{
    let (term, rest) = read_u64(bytes)?;
    let (length, rest) = read_u32(rest)?;
    let (run, rest) = read_run(rest, length as usize)?;
    match read_item(alloc, run) {
        Ok(item) => Ok((Entry { term, item }, rest)),
        Err(ReadRefused::Misfit(misfit)) => Err(ReadRefused::Misfit(misfit.before(rest.len()))),
        Err(ReadRefused::NoMemory) => Err(ReadRefused::NoMemory),
    }
}

/// `count` entries, and the bytes after them. Refused at the first field that doesn't fit, or for want of memory.
pub fn read_counted(
    alloc: Global,
    bytes: &[u8],
    count: u32,
) -> Result<(Entries, &[u8]), ReadRefused>
    ensures { Gives (λ x. (x.0, x.1.now)) result (many_at entry_at count bytes.now) }
{
    let mut entries = Listed::new(alloc);
    let mut rest = bytes;
    for _ in 0..count {
        let (entry, after) = read_entry(alloc, rest)?;
        entries.push(entry)?;
        rest = after;
    }
    Ok((entries, rest))
}

/// Entries behind their count, and the bytes after them. Refused at the first field that doesn't fit, or for want of
/// memory.
#[tactic(auto, unfolding(crate::specs::Reading::entries_at))]
pub fn read_entries(alloc: Global, bytes: &[u8]) -> Result<(Entries, &[u8]), ReadRefused>
    ensures { Gives (λ x. (x.0, x.1.now)) result (entries_at bytes.now) }
{
    let (count, rest) = read_u32(bytes)?;
    read_counted(alloc, rest, count)
}

#[tactic(auto, unfolding(crate::specs::Reading::body_at, byte_fields::specs::Reading::whole))]
fn read_body(alloc: Global, bytes: &[u8]) -> Result<Record, ReadRefused>
    ensures { Gives (λ r. r) result (whole body_at bytes.now) }
{
    let (term, rest) = read_u64(bytes)?;
    let (vote, rest) = read_u32(rest)?;
    let (keep, rest) = read_u64(rest)?;
    let (entries, rest) = read_entries(alloc, rest)?;
    if !rest.is_empty() {
        return Err(ReadRefused::Misfit(Misfit::at(rest)));
    }
    Ok(Record {
        term,
        vote,
        keep,
        entries,
    })
}

fn decoded(alloc: Global, body: &[u8]) -> Result<Record, FrameRefused>
    ensures { ReadsAll place (length body.now) result (whole body_at body.now) }
{
    match read_body(alloc, body) {
        Ok(record) => Ok(record),
        Err(ReadRefused::Misfit(misfit)) => {
            Err(FrameRefused::BadFile((body.len() - misfit.left) as u64))
        }
        Err(ReadRefused::NoMemory) => Err(FrameRefused::NoMemory),
    }
}

/// The record that the bytes spell, all of the bytes. Refused as `BadFile` exactly where they spell none, at the
/// first field that doesn't fit.
pub fn decode(alloc: Global, bytes: &[u8]) -> Result<Record, FrameRefused>
    // What is read is spelled so.
    ensures found { IfOk result (λ r. FitsRecord r × (bytes.now ≡ body r)) }
    // What is spelled so is read, unless memory runs out.
    ensures only { (r : Record) → FitsRecord r → bytes.now ≡ body r → Answers place r result }
    // At which place it is refused.
    ensures exact { ReadsAll place (length bytes.now) result (whole body_at bytes.now) }
{
    decoded(alloc, bytes)
}

/// A record has one spelling, and no body's spelling begins another's.
pub fn one_spelling()
    ensures { (r s : Record) (a b : List ℕ) → FitsRecord r → FitsRecord s → body r ++ a ≡ body s ++ b → (r ≡ s) × (a ≡ b) }
{}
