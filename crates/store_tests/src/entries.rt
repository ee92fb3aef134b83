//! Entries as their bytes: one of each kind, with numbers and with texts, and damage at each field of two of them.
use crate::hex::bytes_of;
use graph_model::{CallId, Op, Query, Vid};
use lists::{Bytes, NoMemory};
use part_keys::{EntryRefused, PartEntry, read_entry, write_entry};
use std::alloc::Global;
use std::test::Fail;

/// What is looked at of an entry: its kind; its client or source part; its number, its term or its chain; the chain of a
/// Remote or a Fence, or the flag of a Prime; how many edges or types it has.
type Summary = (u8, u32, u64, u64, usize);

/// Client 1, number 7, with IF NOT EXISTS: "a" -> "b" is to have the row (90), "a" -> "c" is to be absent.
const PRIME: &[u8] = b"01 00000001 0000000000000007 01 02 \
    010161 00000001 0000000000000000 010162 01 0001 01 000000000000005a \
    010161 00000001 0000000000000000 010163 00";

/// Part 2, term 3, chain 9: 1 -> 2 and 1 -> 4.
const FENCE: &[u8] = b"07 00000002 0000000000000003 0000000000000009 02 \
    0000000000000001 00000001 0000000000000000 0000000000000002 \
    0000000000000001 00000001 0000000000000000 0000000000000004";

/// Entries, whether their ids are tagged, and what they are.
const ENTRIES: [(&[u8], bool, Summary); 12] = [
    (PRIME, true, (1, 1, 7, 1, 2)),
    (b"02 0000000000000009", true, (2, 0, 9, 0, 0)),
    (b"03 0000000000000009", true, (3, 0, 9, 0, 0)),
    (b"04 0000000000000009", false, (4, 0, 9, 0, 0)),
    (b"05 ffffffffffffffff", false, (5, 0, u64::MAX, 0, 0)),
    (
        b"06 00000040 0000000000000003 0000000000000009 02 \
        00 0000000000000001 00000001 ffffffffffffffff 00 fffffffffffffffe 01 0000 \
        00 0000000000000001 00000001 0000000000000000 00 0000000000000004 00",
        true,
        (6, 64, 3, 9, 2),
    ),
    (
        b"06 00000001 0000000000000003 0000000000000009 02 \
        0000000000000001 00000001 ffffffffffffffff fffffffffffffffe 01 0001 02 01 \
        0000000000000001 00000001 0000000000000000 0000000000000004 00",
        false,
        (6, 1, 3, 9, 2),
    ),
    (FENCE, false, (7, 2, 3, 9, 2)),
    (
        b"08 00000040 0000000000000008 01 010161 00000003 01 0001 03 00000002 c3a9",
        true,
        (8, 64, 8, 1, 1),
    ),
    (
        b"08 00000001 0000000000000008 02 0100",
        true,
        (8, 1, 8, 2, 0),
    ),
    (
        b"09 00000001 0000000000000009 03 010161 02 00000001 00000002",
        true,
        (9, 1, 9, 3, 2),
    ),
    (
        b"09 00000001 0000000000000009 01 0000000000000005 00000003",
        false,
        (9, 1, 9, 1, 0),
    ),
];

/// Which change of a vertex it is, and how many values its row has.
fn change(op: &Op) -> (u64, usize) {
    match op {
        Op::PutVertex(_, _, row, _) => (1, row.len()),
        Op::DelVertex(_) => (2, 0),
        _ => (0, 0),
    }
}

/// Which query it is, and how many types it follows.
fn query(asked: &Query) -> (u64, usize) {
    match asked {
        Query::Tag(_, _) => (1, 0),
        Query::Edge(_) => (2, 0),
        Query::Out(_, types) => (3, types.as_slice().len()),
        Query::In(_, types) => (4, types.as_slice().len()),
        Query::Both(_, types) => (5, types.as_slice().len()),
    }
}

fn summary(entry: &PartEntry) -> Summary {
    match entry {
        PartEntry::Prime(id, list, absent) => {
            (1, id.client, id.number, *absent as u64, list.len())
        }
        PartEntry::Local(v) => (2, 0, *v, 0, 0),
        PartEntry::Double(v) => (3, 0, *v, 0, 0),
        PartEntry::Close(v) => (4, 0, *v, 0, 0),
        PartEntry::Abort(v) => (5, 0, *v, 0, 0),
        PartEntry::Remote(source, term, v, list) => (6, *source, *term, *v, list.len()),
        PartEntry::Fence(source, term, v, edges) => (7, *source, *term, *v, edges.len()),
        PartEntry::Vertex(id, op) => {
            let (kind, count) = change(op);
            (8, id.client, id.number, kind, count)
        }
        PartEntry::Read(id, asked) => {
            let (kind, count) = query(asked);
            (9, id.client, id.number, kind, count)
        }
    }
}

/// What the bytes are read as, if they are an entry's.
fn read(alloc: Global, bytes: &[u8], tagged: bool) -> Result<Option<Summary>, NoMemory> {
    match read_entry(alloc, bytes, if tagged { 2 } else { 1 }) {
        Ok(entry) => Ok(Some(summary(&entry))),
        Err(EntryRefused::BadPacket(_)) => Ok(None),
        Err(EntryRefused::NoMemory) => Err(NoMemory),
    }
}

/// The place at which the bytes are refused, if they are no entry's.
fn place_in(alloc: Global, bytes: &[u8], tagged: bool) -> Result<Option<u64>, NoMemory> {
    match read_entry(alloc, bytes, if tagged { 2 } else { 1 }) {
        Ok(_) => Ok(None),
        Err(EntryRefused::BadPacket(at)) => Ok(Some(at)),
        Err(EntryRefused::NoMemory) => Err(NoMemory),
    }
}

#[test]
fn each_kind(rt: HostRuntime) -> Result<(), Fail> {
    let alloc = rt.alloc();
    for (digits, tagged, is) in ENTRIES {
        let bytes = bytes_of(alloc, digits)?;
        let found = read(alloc, bytes.as_slice(), tagged)?;
        assert!(rt; found == Some(is), "kind {}", is.0);
    }
    Ok(())
}

/// A place in PRIME, the byte that is put there, and the place of the field that doesn't fit then: the kind, the client, the
/// flag, the count, an id's kind, a text's length, a text, a type, a half, a row that ends too early, a value's kind, an edge
/// that stands twice, a half again.
const IN_PRIME: [(usize, u8, u64); 16] = [
    (0, 10, 0),
    (4, 0, 1),
    (4, 65, 1),
    (13, 2, 13),
    (14, 0, 14),
    (14, 65, 14),
    (15, 2, 15),
    (16, 33, 16),
    (17, 0xff, 17),
    (18, 0x80, 18),
    (21, 0, 18),
    (33, 2, 33),
    (35, 0, 38),
    (36, 4, 36),
    (62, 0x62, 45),
    (63, 2, 63),
];

/// The same in FENCE: the source part, the count, a type, an edge that stands twice.
const IN_FENCE: [(usize, u8, u64); 6] = [
    (0, 0, 0),
    (4, 0, 1),
    (4, 65, 1),
    (21, 65, 21),
    (33, 0, 30),
    (77, 2, 50),
];

/// The bytes of these digits, with this byte at the place.
fn damaged(alloc: Global, digits: &[u8], place: usize, byte: u8) -> Result<Vec<u8>, NoMemory> {
    let mut bytes = Vec::from_slice(alloc, bytes_of(alloc, digits)?.as_slice())?;
    if place < bytes.len() {
        bytes[place] = byte;
    }
    Ok(bytes)
}

/// Whether the bytes with this one in them are refused at this place.
fn is_refused(
    alloc: Global,
    digits: &[u8],
    tagged: bool,
    damage: (usize, u8, u64),
) -> Result<bool, NoMemory> {
    let bytes = damaged(alloc, digits, damage.0, damage.1)?;
    Ok(place_in(alloc, bytes.as_slice(), tagged)? == Some(damage.2))
}

#[test]
fn damaged_entries(rt: HostRuntime) -> Result<(), Fail> {
    let alloc = rt.alloc();
    for damage in IN_PRIME {
        assert!(rt;
            is_refused(alloc, PRIME, true, damage)?,
            "byte {}",
            damage.0
        );
    }
    for damage in IN_FENCE {
        assert!(rt;
            is_refused(alloc, FENCE, false, damage)?,
            "byte {}",
            damage.0
        );
    }
    Ok(())
}

#[test]
fn cut_and_longer_entries(rt: HostRuntime) -> Result<(), Fail> {
    let alloc = rt.alloc();
    let mut bytes = Vec::from_slice(alloc, bytes_of(alloc, PRIME)?.as_slice())?;
    bytes.push(0)?;
    assert!(rt; place_in(alloc, bytes.as_slice(), true)? == Some(64));
    bytes.truncate(63);
    assert!(rt; place_in(alloc, bytes.as_slice(), true)? == Some(63));
    // Tagged ids are no bare ones.
    assert!(rt; place_in(alloc, bytes.as_slice(), false)? == Some(23));
    Ok(())
}

/// The bytes of the Local of chain 9, in version 2.
fn written_local(alloc: Global) -> Result<Bytes, NoMemory> {
    write_entry(alloc, &PartEntry::Local(9), 2)
}

/// The bytes of client 1's call 8, which deletes vertex 5, in version 1.
fn written_gone(alloc: Global) -> Result<Bytes, NoMemory> {
    let id = CallId {
        client: 1,
        number: 8,
    };
    write_entry(alloc, &PartEntry::Vertex(id, Op::DelVertex(Vid::Num(5))), 1)
}

/// Whether these are the bytes of the digits.
fn are_digits(alloc: Global, written: &Bytes, digits: &[u8]) -> Result<bool, NoMemory> {
    let bytes = bytes_of(alloc, digits)?;
    Ok(written.as_slice() == bytes.as_slice())
}

#[test]
fn a_local_is_written(rt: HostRuntime) -> Result<(), Fail> {
    let alloc = rt.alloc();
    let written = written_local(alloc)?;
    assert!(rt; are_digits(alloc, &written, b"02 0000000000000009")?);
    Ok(())
}

#[test]
fn a_vertex_is_written(rt: HostRuntime) -> Result<(), Fail> {
    let alloc = rt.alloc();
    let written = written_gone(alloc)?;
    let digits = b"08 00000001 0000000000000008 02 0000000000000005";
    assert!(rt; are_digits(alloc, &written, digits)?);
    Ok(())
}
