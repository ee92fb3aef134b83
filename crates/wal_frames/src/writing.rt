//! Writing frames.
ghost use Rattle.std.specs.Prelude.{◌≡◌, ◌<◌, ◌++◌, length, IfOk, OnOk};
ghost use Rattle.std.specs.List.{flat_map, AllByRecursion};
ghost use Rattle.raft_log.specs.Config.{IsConfig, IsItem, AreEntries};
ghost use Rattle.byte_fields.specs.Frames.{IsFrame};
ghost use Rattle.wal_frames.specs.Spelling.{config, item, entry, entries, body, FitsConfig, FitsItem, FitsEntry, FitEntries, FitsRecord};

use crate::kinds::{MEMBERS_ITEM, NO_OP_ITEM, PAYLOAD_ITEM};
use byte_fields::{CLOSED_GATE, Frame, Writer};
use lists::NoMemory;
use raft_log::{Config, Entries, Entry, Item, Record};
use std::alloc::Global;

fn put_config(out: &mut Writer, members: &Config) -> Result<(), NoMemory>
    requires { IsConfig members.now }
    ensures ok { OnOk result (out.new ≡ out.old ++ config members.now) }
    ensures fits { OnOk result (FitsConfig members.now) }
{
    let voters = members.voters.as_slice();
    let learners = members.learners.as_slice();
    out.put_byte(voters.len() as u8)?;
    out.put_ids(voters)?;
    out.put_byte(learners.len() as u8)?;
    out.put_ids(learners)
}

fn put_item(out: &mut Writer, held: &Item) -> Result<(), NoMemory>
    requires { IsItem held.now }
    ensures ok { OnOk result (out.new ≡ out.old ++ item held.now) }
    ensures fits { OnOk result (FitsItem held.now) }
{
    match held {
        Item::NoOp => out.put_byte(NO_OP_ITEM),
        Item::Members(members) => {
            out.put_byte(MEMBERS_ITEM)?;
            put_config(out, members)
        }
        Item::Payload(bytes) => {
            out.put_byte(PAYLOAD_ITEM)?;
            out.put_run(bytes.as_slice())
        }
    }
}

fn put_entry(out: &mut Writer, made: &Entry) -> Result<(), NoMemory>
    requires { IsItem made.now.item }
    ensures ok { OnOk result (out.new ≡ out.old ++ entry made.now) }
    ensures fits { OnOk result (FitsEntry made.now) }
{
    out.put_u64(made.term)?;
    let at = out.len();
    out.put_u32(0)?;
    put_item(out, &made.item)?;
    out.fill_length(at)?;
    Ok(())
}

fn put_each(out: &mut Writer, list: &[Entry]) -> Result<(), NoMemory>
    requires { AreEntries list.now }
    ensures ok { OnOk result (out.new ≡ out.old ++ flat_map entry list.now) }
    ensures fits { OnOk result (AllByRecursion FitsEntry list.now) }
{
    for made in list {
        put_entry(out, made)?;
    }
    Ok(())
}

/// The most bytes of an item that is members: its kind, two counts, and eight ids of 4 bytes.
const MOST_MEMBERS: usize = 35;

/// The bytes of an entry before its item: its term and a length.
const ENTRY_HEAD: usize = 12;

/// The bytes of a frame beside its entries: two lengths, a vote, two numbers and a gate.
const FRAME_FIELDS: usize = 25;

// How many bytes an item takes at most: members are at most eight peers.
fn item_room(held: &Item) -> usize {
    match held {
        Item::NoOp => 1,
        Item::Members(_) => MOST_MEMBERS,
        Item::Payload(bytes) => bytes.len().saturating_add(1),
    }
}

/// How many bytes entries take at most, behind their count. It is no promise: a writer that needs more takes more.
pub fn entries_room(list: &Entries) -> usize {
    let mut room: usize = 4;
    for made in list.as_slice() {
        room = room
            .saturating_add(item_room(&made.item))
            .saturating_add(ENTRY_HEAD);
    }
    room
}

/// Puts entries behind their count. Refused for want of memory, and for a number of entries or a length of an item that
/// doesn't fit 4 bytes; some of them may stand then. Entries that were put have a spelling that `read_entries` reads again.
pub fn put_entries(out: &mut Writer, list: &Entries) -> Result<(), NoMemory>
    requires { AreEntries list.now }
    ensures ok { OnOk result (out.new ≡ out.old ++ entries list.now) }
    ensures fits { OnOk result (FitEntries list.now) }
{
    if list.len() > u32::MAX as usize {
        return Err(NoMemory);
    }
    out.put_u32(list.len() as u32)?;
    put_each(out, list.as_slice())
}

fn put_body(out: &mut Writer, made: &Record) -> Result<(), NoMemory>
    requires { AreEntries made.now.entries }
    ensures ok { OnOk result (out.new ≡ out.old ++ body made.now) }
    ensures fits { OnOk result (FitsRecord made.now) }
{
    out.put_u64(made.term)?;
    out.put_u32(made.vote)?;
    out.put_u64(made.keep)?;
    put_entries(out, &made.entries)
}

/// The record's frame. Its configurations are ones. Refused for want of memory, and for a body whose length doesn't fit
/// four bytes; a record that has a frame is one that `decode` reads again.
pub fn encode(alloc: Global, made: &Record) -> Result<Frame, NoMemory>
    requires { AreEntries made.now.entries }
    ensures ok { IfOk result (λ frame. IsFrame (body made.now) frame) }
    ensures fits { OnOk result (FitsRecord made.now) }
{
    let mut out = Writer::with_room(
        alloc,
        entries_room(&made.entries).saturating_add(FRAME_FIELDS),
    )?;
    out.put_u32(0)?;
    put_body(&mut out, made)?;
    out.fill_length(0)?;
    out.put_byte(CLOSED_GATE)?;
    Ok(out.into_bytes())
}
