//! Writing keys.
ghost use Rattle.std.specs.Prelude.{◌≡◌, ◌≤◌, ◌<◌, ◌+◌, ◌++◌, length, FitsSigned};
ghost use Rattle.std.specs.Int.{w32, w64, cast_unsigned};
ghost use Rattle.byte_fields.specs.Fields.{number};
ghost use Rattle.std.specs.Prelude.{pos, neg_ℤ, ◌<ℤ◌};
ghost use Rattle.graph_bytes.specs.Fits.{most_small};
ghost use Rattle.graph_model.specs.declared.edge_id.EdgeId.{EdgeId};
ghost use Rattle.part_keys.specs.declared.key.Key.TheVariants as keys;
ghost use Rattle.part_keys.specs.Routing.{part_of as number_of_part};
ghost use Rattle.part_keys.specs.Keys.{most_key, flipped, vertex, key, IsKind, IsOf, IsOfKind, FitsKey};

use crate::key::{EDGE_KIND, TAG_KIND};
use crate::key_bytes::KeyBytes;
use crate::part::part_number;
use crate::vid_kind::VidKind;
use byteorder::{BigEndian, ByteOrder};
use graph_model::{EdgeId, Vid};

// Puts a part.
#[tactic(auto, unfolding(byte_fields::specs::Fields::number))]
fn put_part(out: &mut KeyBytes, part: u32)
    requires room { length out.old + 3 ≤ most_key }
    requires small { part < 65536 }
    ensures put { out.new ≡ out.old ++ number 3 part }
    ensures grows { length out.new ≡ length out.old + 3 }
{
    let mut field = [0; 3];
    BigEndian::write_u24(&mut field, part);
    out.put_run(&field);
}

// Puts a number of 4 bytes.
#[tactic(auto, unfolding(byte_fields::specs::Fields::number))]
fn put_u32(out: &mut KeyBytes, n: u32)
    requires { length out.old + 4 ≤ most_key }
    ensures put { out.new ≡ out.old ++ number 4 n }
    ensures grows { length out.new ≡ length out.old + 4 }
{
    let mut field = [0; 4];
    BigEndian::write_u32(&mut field, n);
    out.put_run(&field);
}

// Puts a signed number of 8 bytes with its sign bit flipped.
#[tactic(auto, unfolding(byte_fields::specs::Fields::number))]
fn put_i64(out: &mut KeyBytes, n: &i64)
    requires { length out.old + 8 ≤ most_key }
    ensures put { out.new ≡ out.old ++ flipped w64 n.now }
    ensures fits { FitsSigned w64 n.now }
    ensures grows { length out.new ≡ length out.old + 8 }
{
    let mut field = [0; 8];
    BigEndian::write_u64(&mut field, n.cast_unsigned().wrapping_add(1 << 63));
    out.put_run(&field);
}

// Puts a signed number of 4 bytes with its sign bit flipped.
#[tactic(auto, unfolding(byte_fields::specs::Fields::number))]
fn put_i32(out: &mut KeyBytes, n: &i32)
    requires { length out.old + 4 ≤ most_key }
    ensures put { out.new ≡ out.old ++ flipped w32 n.now }
    ensures fits { FitsSigned w32 n.now }
    ensures grows { length out.new ≡ length out.old + 4 }
{
    let mut field = [0; 4];
    BigEndian::write_u32(&mut field, n.cast_unsigned().wrapping_add(1 << 31));
    out.put_run(&field);
}

// Puts an id of the kind.
fn put_vertex(out: &mut KeyBytes, v: &Vid, ids: VidKind)
    requires kind { IsKind ids }
    requires of { IsOfKind ids v.now }
    requires room { length out.old + 33 ≤ most_key }
    ensures put { out.new ≡ out.old ++ vertex ids v.now }
    ensures fits { IsOf ids v.now }
    ensures grows { length out.new ≤ length out.old + 33 }
{
    match ids {
        VidKind::Num => match v {
            Vid::Num(number) => put_i64(out, number),
            Vid::Name(_) => unreachable!(),
        },
        VidKind::Name(most) => match v {
            Vid::Num(_) => unreachable!(),
            Vid::Name(name) => {
                out.put_run(&name.filled()[..most as usize]);
                let len = [name.len()];
                out.put_run(&len);
            }
        },
    }
}

/// The key of a tag's row.
pub fn tag_key(ids: VidKind, parts: u32, v: Vid, tag: u32) -> KeyBytes
    requires some { 0 < parts }
    requires few { parts ≤ most_small }
    requires kind { IsKind ids }
    requires of { IsOfKind ids v }
    ensures bytes { result ≡ key ids (keys.Tag (number_of_part parts v) v tag) }
    ensures fits { FitsKey ids (keys.Tag (number_of_part parts v) v tag) }
{
    let mut out = KeyBytes::new();
    let first = [TAG_KIND];
    out.put_run(&first);
    put_part(&mut out, part_number(&v, parts));
    put_vertex(&mut out, &v, ids);
    put_u32(&mut out, tag);
    out
}

/// The key of an edge's half at its source.
pub fn out_key(ids: VidKind, parts: u32, e: &EdgeId) -> KeyBytes
    requires some { 0 < parts }
    requires few { parts ≤ most_small }
    requires kind { IsKind ids }
    requires src { IsOfKind ids e.now.src }
    requires dst { IsOfKind ids e.now.dst }
    ensures bytes { result ≡ key ids (keys.OutEdge (number_of_part parts e.now.src) e.now) }
    ensures fits { pos 0 <ℤ e.now.etype → FitsKey ids (keys.OutEdge (number_of_part parts e.now.src) e.now) }
{
    let mut out = KeyBytes::new();
    let first = [EDGE_KIND];
    out.put_run(&first);
    put_part(&mut out, part_number(&e.src, parts));
    put_vertex(&mut out, &e.src, ids);
    put_i32(&mut out, &e.etype);
    put_i64(&mut out, &e.rank);
    put_vertex(&mut out, &e.dst, ids);
    let last = [0];
    out.put_run(&last);
    out
}

// The type of an in-edge's key.
fn negated(etype: &i32) -> i32
    requires { pos 0 <ℤ etype.now }
    ensures value { result ≡ neg_ℤ etype.now }
    ensures fits { FitsSigned w32 etype.now }
{
    -*etype
}

/// The key of an edge's half at its destination: its type is negated.
pub fn in_key(ids: VidKind, parts: u32, e: &EdgeId) -> KeyBytes
    requires some { 0 < parts }
    requires few { parts ≤ most_small }
    requires kind { IsKind ids }
    requires src { IsOfKind ids e.now.src }
    requires dst { IsOfKind ids e.now.dst }
    requires positive { pos 0 <ℤ e.now.etype }
    ensures bytes { result ≡ key ids (keys.InEdge (number_of_part parts e.now.dst) e.now) }
    ensures fits { FitsKey ids (keys.InEdge (number_of_part parts e.now.dst) e.now) }
{
    let mut out = KeyBytes::new();
    let first = [EDGE_KIND];
    out.put_run(&first);
    put_part(&mut out, part_number(&e.dst, parts));
    put_vertex(&mut out, &e.dst, ids);
    let back = negated(&e.etype);
    put_i32(&mut out, &back);
    put_i64(&mut out, &e.rank);
    put_vertex(&mut out, &e.src, ids);
    let last = [0];
    out.put_run(&last);
    out
}
