//! Keys, part numbers and a row as their bytes.
ghost use Rattle.std.specs.Prelude.{◌≤◌, length};

use byte_fields::Writer;
use graph_bytes::put_row;
use graph_model::{EdgeId, Name, Row, Val, Vid};
use part_keys::{Key, VidKind, in_key, out_key, part_of, read_key};
use std::test::Fail;

/// The edge from 1 to 2 of type 1.
const EDGE: EdgeId = EdgeId {
    src: Vid::Num(1),
    etype: 1,
    rank: 0,
    dst: Vid::Num(2),
};

/// Its key at its source, with 2 parts.
const OUT_KEY: [u8; 33] = [
    2, 0, 0, 2, 128, 0, 0, 0, 0, 0, 0, 1, 128, 0, 0, 1, 128, 0, 0, 0, 0, 0, 0, 0, 128, 0, 0, 0, 0,
    0, 0, 2, 0,
];

/// Its key at its destination.
const IN_KEY: [u8; 33] = [
    2, 0, 0, 1, 128, 0, 0, 0, 0, 0, 0, 2, 127, 255, 255, 255, 128, 0, 0, 0, 0, 0, 0, 0, 128, 0, 0,
    0, 0, 0, 0, 1, 0,
];

/// The key at the source of the edge from "a" to "b", in a space of texts of at most 8 bytes.
const TEXT_KEY: [u8; 35] = [
    2, 0, 0, 1, 97, 0, 0, 0, 0, 0, 0, 0, 1, 128, 0, 0, 1, 128, 0, 0, 0, 0, 0, 0, 0, 98, 0, 0, 0, 0,
    0, 0, 0, 1, 0,
];

/// The key of client 1 in part 2.
const CLIENT_KEY: [u8; 8] = [6, 0, 0, 2, 0, 0, 0, 1];

/// The row (90).
const ROW: [u8; 11] = [0, 1, 1, 0, 0, 0, 0, 0, 0, 0, 90];

#[test]
fn worked_keys(rt: HostRuntime) {
    assert_eq!(rt;
        out_key(VidKind::Num, 2, &EDGE).as_slice(),
        OUT_KEY.as_slice()
    );
    assert_eq!(rt;
        in_key(VidKind::Num, 2, &EDGE).as_slice(),
        IN_KEY.as_slice()
    );
}

#[test]
fn keys_are_read(rt: HostRuntime) {
    assert!(rt; matches!(read_key(VidKind::Num, &OUT_KEY), Some(Key::OutEdge(2, _))));
    assert!(rt; matches!(read_key(VidKind::Num, &IN_KEY), Some(Key::InEdge(1, _))));
    assert!(rt; matches!(read_key(VidKind::Num, &CLIENT_KEY), Some(Key::Client(2, 1))));
    assert!(rt;
        matches!(
            read_key(VidKind::Name(8), &TEXT_KEY),
            Some(Key::OutEdge(1, _))
        )
    );
}

#[test]
fn other_keys_are_none(rt: HostRuntime) {
    assert!(rt; read_key(VidKind::Num, &CLIENT_KEY[..7]).is_none());
    assert!(rt; read_key(VidKind::Num, &TEXT_KEY).is_none());
    // A byte behind the text that isn't 0, and a length above 8.
    for (at, byte) in [(11, 1), (12, 9)] {
        let mut bytes = TEXT_KEY;
        bytes[at] = byte;
        assert!(rt; read_key(VidKind::Name(8), &bytes).is_none(), "byte {at}");
    }
}

/// The part of a text of at most 32 bytes.
fn part_of_text(text: &[u8], parts: u32) -> u32 {
    if text.len() > 32 || parts == 0 {
        return 0;
    }
    part_of(Vid::Name(Name::new(text)), parts)
}

#[test]
fn parts_of_vertices(rt: HostRuntime) {
    for (v, part) in [(-1, 6), (i64::MIN, 9), (i64::MAX, 8)] {
        assert_eq!(rt; part_of(Vid::Num(v), 10), part, "of {v}");
    }
    assert_eq!(rt; part_of_text(b"a", 10), 7);
    assert_eq!(rt; part_of_text(b"a", 2), 1);
    assert_eq!(rt; part_of_text(b"b", 2), 2);
}

#[test]
fn worked_row(rt: HostRuntime) -> Result<(), Fail> {
    let mut row = Row::new(rt.alloc());
    row.push(Val::Int(90))?;
    let mut out = Writer::new(rt.alloc());
    put_row(&mut out, &row)?;
    assert_eq!(rt; out.into_bytes().as_slice(), ROW.as_slice());
    Ok(())
}
