//! The pairs of a part's store behind two edges.
ghost use Rattle.std.specs.Prelude.{◌≡◌, IfOk};
ghost use Rattle.std.specs.Prelude.{[], ◌∷◌, pos};
ghost use Rattle.graph_model.specs.declared.val.Val.TheVariants.{Int};
ghost use Rattle.part_tests.specs.Edges.{two_edges, edge_back};

use graph_model::{CallId, EdgeId, Half, Row, Val, Vid};
use kv_part::{Batch, KeyStore, MapStore};
use lists::{Listed, NoMemory};
use part_keys::VidKind;
use part_rules::{Kept, Outcome};
use part_store::{
    Setting, push_chains, push_client, push_guard, push_ins, push_no_chains, push_no_tags,
    push_outs, push_tag, tags_at,
};
use std::alloc::Global;
use std::test::Fail;

/// Part 2 of 2, in a space of numbers.
const HERE: Setting = Setting {
    ids: VidKind::Num,
    parts: 2,
    part: 2,
};

/// The edge from 1 to 2 of type 1.
const FIRST: EdgeId = EdgeId {
    src: Vid::Num(1),
    etype: 1,
    rank: 0,
    dst: Vid::Num(2),
};

/// The edge from 1 to 4 of type 1.
const SECOND: EdgeId = EdgeId {
    src: Vid::Num(1),
    etype: 1,
    rank: 0,
    dst: Vid::Num(4),
};

/// Client 1's call 7.
const CALL: CallId = CallId {
    client: 1,
    number: 7,
};

/// An edge's key without its kind and its last bytes: part 2, vertex 1, type 1, rank 0.
const FRONT: [u8; 23] = [
    0, 0, 2, 128, 0, 0, 0, 0, 0, 0, 1, 128, 0, 0, 1, 128, 0, 0, 0, 0, 0, 0, 0,
];

/// The row (90).
const ROW: [u8; 11] = [0, 1, 1, 0, 0, 0, 0, 0, 0, 0, 90];

/// Chain 3 of that call, which gives the edge the row (90).
const PUT: [u8; 32] = [
    0, 0, 0, 0, 0, 0, 0, 3, 0, 0, 0, 1, 0, 0, 0, 0, 0, 0, 0, 7, 1, 0, 1, 1, 0, 0, 0, 0, 0, 0, 0, 90,
];

/// Chain 3 of that call, which removes the edge.
const GONE: [u8; 21] = [
    0, 0, 0, 0, 0, 0, 0, 3, 0, 0, 0, 1, 0, 0, 0, 0, 0, 0, 0, 7, 0,
];

/// The edge from 2 to 1 of type 1.
const BACK: EdgeId = EdgeId {
    src: Vid::Num(2),
    etype: 1,
    rank: 0,
    dst: Vid::Num(1),
};

/// The key of its in-half in part 2.
const BACK_KEY: [u8; 33] = [
    2, 0, 0, 2, 128, 0, 0, 0, 0, 0, 0, 1, 127, 255, 255, 255, 128, 0, 0, 0, 0, 0, 0, 0, 128, 0, 0,
    0, 0, 0, 0, 2, 0,
];

/// Its in-half, the row (90), by chain 3.
const BACK_VALUE: [u8; 20] = [0, 0, 0, 0, 0, 0, 0, 3, 1, 0, 1, 1, 0, 0, 0, 0, 0, 0, 0, 90];

/// The guard for part 1, and a term of 9.
const GUARD_KEY: [u8; 7] = [5, 0, 0, 2, 0, 0, 1];

const GUARD: [u8; 8] = [0, 0, 0, 0, 0, 0, 0, 9];

/// Client 1, whose call 7 is in conflict with client 2's call 4.
const CLIENT_KEY: [u8; 8] = [6, 0, 0, 2, 0, 0, 0, 1];

const CLIENT: [u8; 21] = [
    0, 0, 0, 0, 0, 0, 0, 7, 5, 0, 0, 0, 2, 0, 0, 0, 0, 0, 0, 0, 4,
];

/// Tag 5 of vertex 1.
const TAG_KEY: [u8; 16] = [1, 0, 0, 2, 128, 0, 0, 0, 0, 0, 0, 1, 0, 0, 0, 5];

/// The row (90).
fn row(alloc: Global) -> Result<Row, NoMemory>
    ensures { IfOk result (λ row. row ≡ Int (pos 90) ∷ []) }
{
    let mut row = Row::new(alloc);
    row.push(Val::Int(90))?;
    Ok(row)
}

/// The edge from 2 to 1 with the row (90).
fn edge_back(alloc: Global) -> Result<Listed<(EdgeId, Half)>, NoMemory>
    ensures { IfOk result (λ list. list ≡ edge_back) }
{
    let row = row(alloc)?;
    let mut list = Listed::new(alloc);
    list.push((BACK, Half::Here(row)))?;
    Ok(list)
}

/// The first edge with the row (90), the second removed.
fn two_edges(alloc: Global) -> Result<Listed<(EdgeId, Half)>, NoMemory>
    ensures { IfOk result (λ list. list ≡ two_edges) }
{
    let mut row = Row::new(alloc);
    row.push(Val::Int(90))?;
    let mut list = Listed::new(alloc);
    list.push((FIRST, Half::Here(row)))?;
    list.push((SECOND, Half::Absent))?;
    Ok(list)
}

/// An edge's key of this kind, from 1 to this vertex.
fn key_of(kind: u8, dst: u8) -> [u8; 33] {
    let mut key = [0; 33];
    key[0] = kind;
    key[1..24].copy_from_slice(&FRONT);
    key[24] = 128;
    key[31] = dst;
    key
}

/// Whether the store has this value at the key.
fn has(store: &MapStore, key: &[u8], value: &[u8]) -> bool {
    match store.get(key) {
        Some(found) => found == value,
        None => false,
    }
}

/// The store behind this batch.
fn behind(alloc: Global, mut store: MapStore, batch: Batch) -> Result<MapStore, NoMemory> {
    store.reserve(alloc, &batch)?;
    store.write(batch);
    Ok(store)
}

#[test]
fn chain_on_two_edges(rt: HostRuntime) -> Result<(), Fail> {
    let alloc = rt.alloc();
    let list = two_edges(alloc)?;
    for (double, kind) in [(false, 3), (true, 4)] {
        let mut batch = Batch::new(alloc);
        push_chains(alloc, HERE, double, &mut batch, 3, &CALL, list.as_slice())?;
        let store = behind(alloc, MapStore::new(alloc), batch)?;
        assert!(rt; has(&store, &key_of(kind, 2), &PUT));
        assert!(rt; has(&store, &key_of(kind, 4), &GONE));
        assert!(rt; store.get(&key_of(7 - kind, 2)).is_none());
    }
    Ok(())
}

#[test]
fn two_edges_without_a_chain(rt: HostRuntime) -> Result<(), Fail> {
    let alloc = rt.alloc();
    let list = two_edges(alloc)?;
    let mut batch = Batch::new(alloc);
    push_chains(alloc, HERE, false, &mut batch, 3, &CALL, list.as_slice())?;
    push_outs(alloc, HERE, &mut batch, list.as_slice())?;
    push_no_chains(alloc, HERE, false, &mut batch, list.as_slice())?;
    let store = behind(alloc, MapStore::new(alloc), batch)?;
    assert!(rt; has(&store, &key_of(2, 2), &ROW));
    for (kind, dst) in [(2, 4), (3, 2), (3, 4)] {
        assert!(rt; store.get(&key_of(kind, dst)).is_none(), "kind {kind}");
    }
    Ok(())
}

#[test]
fn in_half_guard_and_client(rt: HostRuntime) -> Result<(), Fail> {
    let alloc = rt.alloc();
    let list = edge_back(alloc)?;
    let last = Kept {
        number: 7,
        outcome: Outcome::Conflict(CallId {
            client: 2,
            number: 4,
        }),
    };
    let mut batch = Batch::new(alloc);
    push_ins(alloc, HERE, &mut batch, 3, list.as_slice())?;
    push_guard(alloc, HERE, &mut batch, 1, 9)?;
    push_client(alloc, HERE, &mut batch, 1, &last)?;
    let store = behind(alloc, MapStore::new(alloc), batch)?;
    assert!(rt; has(&store, &BACK_KEY, &BACK_VALUE));
    assert!(rt; has(&store, &GUARD_KEY, &GUARD));
    assert!(rt; has(&store, &CLIENT_KEY, &CLIENT));
    Ok(())
}

#[test]
fn tag_put_and_removed(rt: HostRuntime) -> Result<(), Fail> {
    let alloc = rt.alloc();
    let vals = row(alloc)?;
    let mut batch = Batch::new(alloc);
    push_tag(alloc, HERE, &mut batch, &Vid::Num(1), 5, &vals)?;
    let store = behind(alloc, MapStore::new(alloc), batch)?;
    assert!(rt; has(&store, &TAG_KEY, &ROW));
    let tags = tags_at(alloc, HERE, &store, &Vid::Num(1))?;
    assert_eq!(rt; tags.as_slice(), [5].as_slice());
    let mut removal = Batch::new(alloc);
    push_no_tags(alloc, HERE, &mut removal, &Vid::Num(1), tags.as_slice())?;
    let left = behind(alloc, store, removal)?;
    assert!(rt; left.get(&TAG_KEY).is_none());
    Ok(())
}
