//! The keys that the entries' crate doesn't write: those of chains, guards and clients.
ghost use Rattle.std.specs.Prelude.{◌≡◌, ◌≤◌, ◌<◌, ◌+◌, ◌++◌, ◌∷◌, length, pos, ◌<ℤ◌};
ghost use Rattle.byte_fields.specs.Fields.{number};
ghost use Rattle.graph_bytes.specs.Fits.{IsSmall};
ghost use Rattle.part_keys.specs.Keys.{key, edge_form, guard_kind, client_kind, IsKind, IsOfKind, FitsKey};
ghost use Rattle.part_keys.specs.Routing.{part_of as number_of_part};
ghost use Rattle.part_keys.specs.declared.key.Key.TheVariants as keys;

use byteorder::{BigEndian, ByteOrder};
use graph_model::EdgeId;
use part_keys::{KeyBytes, VidKind, out_key};

/// The first byte of the key of the chain on an edge.
const PRIME_KIND: u8 = 3;

/// The first byte of the key of the chain on an edge whose out-half is written.
const DOUBLE_KIND: u8 = 4;

/// The first byte of the key of a source part's newest term.
const GUARD_KIND: u8 = 5;

/// The first byte of the key of a client's last call.
const CLIENT_KIND: u8 = 6;

// The key of an edge as its source sees it, with another first byte.
fn of_kind(kind: u8, ids: VidKind, parts: u32, e: &EdgeId) -> KeyBytes
    requires some { 0 < parts }
    requires few { parts ≤ 64 }
    requires kind { IsKind ids }
    requires src { IsOfKind ids e.now.src }
    requires dst { IsOfKind ids e.now.dst }
    ensures bytes { result ≡ kind ∷ edge_form ids (number_of_part parts e.now.src) e.now }
    ensures fits { pos 0 <ℤ e.now.etype → FitsKey ids (keys.OutEdge (number_of_part parts e.now.src) e.now) }
{
    let out = out_key(ids, parts, e);
    let mut made = KeyBytes::new();
    let first = [kind];
    made.put_run(&first);
    made.put_run(&out.as_slice()[1..]);
    made
}

/// The key of the chain on an edge whose out-half isn't written.
pub(crate) fn prime_key(ids: VidKind, parts: u32, e: &EdgeId) -> KeyBytes
    requires some { 0 < parts }
    requires few { parts ≤ 64 }
    requires kind { IsKind ids }
    requires src { IsOfKind ids e.now.src }
    requires dst { IsOfKind ids e.now.dst }
    ensures bytes { result ≡ key ids (keys.Prime (number_of_part parts e.now.src) e.now) }
    ensures fits { pos 0 <ℤ e.now.etype → FitsKey ids (keys.Prime (number_of_part parts e.now.src) e.now) }
{
    of_kind(PRIME_KIND, ids, parts, e)
}

/// The key of the chain on an edge whose out-half is written.
pub(crate) fn double_key(ids: VidKind, parts: u32, e: &EdgeId) -> KeyBytes
    requires some { 0 < parts }
    requires few { parts ≤ 64 }
    requires kind { IsKind ids }
    requires src { IsOfKind ids e.now.src }
    requires dst { IsOfKind ids e.now.dst }
    ensures bytes { result ≡ key ids (keys.DoublePrime (number_of_part parts e.now.src) e.now) }
    ensures fits { pos 0 <ℤ e.now.etype → FitsKey ids (keys.DoublePrime (number_of_part parts e.now.src) e.now) }
{
    of_kind(DOUBLE_KIND, ids, parts, e)
}

// Puts a part.
#[tactic(auto, unfolding(byte_fields::specs::Fields::number))]
fn put_part(out: &mut KeyBytes, part: u32)
    requires room { length out.old + 3 ≤ 83 }
    requires small { part < 65536 }
    ensures put { out.new ≡ out.old ++ number 3 part }
    ensures grows { length out.new ≡ length out.old + 3 }
{
    let mut field = [0; 3];
    BigEndian::write_u24(&mut field, part);
    out.put_run(&field);
}

// Puts a number of 4 bytes.
#[tactic(auto, unfolding(byte_fields::specs::Fields::number))]
fn put_u32(out: &mut KeyBytes, n: u32)
    requires { length out.old + 4 ≤ 83 }
    ensures put { out.new ≡ out.old ++ number 4 n }
    ensures grows { length out.new ≡ length out.old + 4 }
{
    let mut field = [0; 4];
    BigEndian::write_u32(&mut field, n);
    out.put_run(&field);
}

/// The key of a source part's newest term in a part.
pub(crate) fn guard_key(part: u32, source: u32) -> KeyBytes
    requires part { IsSmall part }
    requires source { IsSmall source }
    ensures { result ≡ guard_kind ∷ (number 3 part ++ number 3 source) }
{
    let mut out = KeyBytes::new();
    let first = [GUARD_KIND];
    out.put_run(&first);
    put_part(&mut out, part);
    put_part(&mut out, source);
    out
}

/// The key of a client's last call in a part.
pub(crate) fn client_key(part: u32, client: u32) -> KeyBytes
    requires part { IsSmall part }
    requires client { IsSmall client }
    ensures { result ≡ client_kind ∷ (number 3 part ++ number 4 client) }
{
    let mut out = KeyBytes::new();
    let first = [CLIENT_KIND];
    out.put_run(&first);
    put_part(&mut out, part);
    put_u32(&mut out, client);
    out
}
