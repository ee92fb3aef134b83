//! Reading keys.
ghost use Rattle.std.specs.Prelude.{◌≡◌, ◌≤◌, ◌==◌, length, Some, IfSome, IsTrue};
ghost use Rattle.std.specs.List.{list_all};
ghost use Rattle.std.specs.Int.{w32, w64};
ghost use Rattle.std.specs.Str.{is_utf8};
ghost use Rattle.byte_fields.specs.Reading.{Reads, byte_at, run_at, both_at, made_at, such_at, whole};
ghost use Rattle.part_keys.specs.declared.key.Key.{Key};
ghost use Rattle.part_keys.specs.Keys.{key, IsKind, FitsKey};
ghost use Rattle.part_keys.specs.ReadingKeys.{part_at, flipped_at, placeholder_at, is_text, text_id, vertex_at, form_at, is_either, seen_key, positive_at, key_at};

use crate::key::{CLIENT_KIND, DOUBLE_KIND, EDGE_KIND, GUARD_KIND, Key, PRIME_KIND, TAG_KIND};
use crate::vid_kind::VidKind;
use byte_fields::{Misfit, read_byte, read_id, read_run, read_u16, read_u32, read_u64};
use graph_bytes::MOST_SMALL;
use graph_model::{EdgeId, Name, Vid};

#[tactic(auto, unfolding(crate::specs::ReadingKeys::part_at, byte_fields::specs::Reading::made_at, byte_fields::specs::Reading::such_at, byte_fields::specs::Reading::both_at))]
fn read_part(bytes: &[u8]) -> Result<(u32, &[u8]), Misfit>
    ensures { Reads (λ x. (x.0, x.1.now)) result (part_at bytes.now) }
{
    let (high, rest) = read_byte(bytes)?;
    let (part, rest) = read_u16(rest)?;
    if high != 0 || part == 0 || MOST_SMALL < part as u32 {
        return Err(Misfit::at(bytes));
    }
    Ok((part as u32, rest))
}

#[tactic(auto, unfolding(crate::specs::ReadingKeys::flipped_at, byte_fields::specs::Reading::made_at))]
fn read_flipped_i64(bytes: &[u8]) -> Result<(i64, &[u8]), Misfit>
    ensures { Reads (λ x. (x.0, x.1.now)) result (flipped_at w64 bytes.now) }
{
    let (n, rest) = read_u64(bytes)?;
    Ok((n.wrapping_add(1 << 63).cast_signed(), rest))
}

#[tactic(auto, unfolding(crate::specs::ReadingKeys::flipped_at, byte_fields::specs::Reading::made_at))]
fn read_flipped_i32(bytes: &[u8]) -> Result<(i32, &[u8]), Misfit>
    ensures { Reads (λ x. (x.0, x.1.now)) result (flipped_at w32 bytes.now) }
{
    let (n, rest) = read_u32(bytes)?;
    Ok((n.wrapping_add(1 << 31).cast_signed(), rest))
}

#[tactic(auto, unfolding(crate::specs::ReadingKeys::placeholder_at, byte_fields::specs::Reading::such_at))]
fn read_placeholder(bytes: &[u8]) -> Result<(u8, &[u8]), Misfit>
    ensures { Reads (λ x. (x.0, x.1.now)) result (placeholder_at bytes.now) }
{
    let (byte, rest) = read_byte(bytes)?;
    if byte != 0 {
        return Err(Misfit::at(bytes));
    }
    Ok((byte, rest))
}

// Whether all of the bytes are 0.
fn are_zeros(run: &[u8]) -> bool
    ensures { result ≡ list_all (λ b. b == 0) run.now }
{
    for byte in run {
        if *byte != 0 {
            return false;
        }
    }
    true
}

// Whether the bytes are UTF-8.
fn is_text_run(run: &[u8]) -> bool
    ensures { result ≡ is_utf8 run.now }
{
    match str::from_utf8(run) {
        Ok(_) => true,
        Err(_) => false,
    }
}

// Whether the bytes are a text of this length, filled up with 0.
fn is_filled(run: &[u8], len: u8, most: u8) -> bool
    requires { length run.now ≡ most }
    ensures text { result ≡ is_text most (run.now, len) }
    ensures short { IsTrue result → len ≤ most }
{
    if most < len {
        return false;
    }
    if !is_text_run(&run[..len as usize]) {
        return false;
    }
    are_zeros(&run[len as usize..])
}

// The id of the first bytes, as many as `len`.
fn text_id(run: &[u8], len: u8) -> Vid
    requires within { len ≤ length run.now }
    requires short { len ≤ 32 }
    ensures { result ≡ text_id (run.now, len) }
{
    Vid::Name(Name::new(&run[..len as usize]))
}

#[tactic(auto, unfolding(byte_fields::specs::Reading::made_at, byte_fields::specs::Reading::such_at, byte_fields::specs::Reading::both_at))]
fn read_filled(bytes: &[u8], most: u8) -> Result<(Vid, &[u8]), Misfit>
    requires { most ≤ 32 }
    ensures { Reads (λ x. (x.0, x.1.now)) result (made_at text_id (such_at (is_text most) (both_at (run_at most) byte_at)) bytes.now) }
{
    let (run, rest) = read_run(bytes, most as usize)?;
    let (len, rest) = read_byte(rest)?;
    if !is_filled(run, len, most) {
        return Err(Misfit::at(bytes));
    }
    Ok((text_id(run, len), rest))
}

// An id of the kind.
#[tactic(auto, unfolding(crate::specs::ReadingKeys::vertex_at, byte_fields::specs::Reading::made_at))]
fn read_vertex(bytes: &[u8], ids: VidKind) -> Result<(Vid, &[u8]), Misfit>
    requires { IsKind ids }
    ensures { Reads (λ x. (x.0, x.1.now)) result (vertex_at ids bytes.now) }
{
    match ids {
        VidKind::Num => {
            let (number, rest) = read_flipped_i64(bytes)?;
            Ok((Vid::Num(number), rest))
        }
        VidKind::Name(most) => read_filled(bytes, most),
    }
}

// The part of an edge's key, and the edge as that part sees it.
#[tactic(auto, unfolding(crate::specs::ReadingKeys::form_at, byte_fields::specs::Reading::made_at, byte_fields::specs::Reading::both_at))]
fn read_form(bytes: &[u8], ids: VidKind) -> Result<((u32, EdgeId), &[u8]), Misfit>
    requires { IsKind ids }
    ensures { Reads (λ x. (x.0, x.1.now)) result (form_at ids bytes.now) }
{
    let (part, rest) = read_part(bytes)?;
    let (src, rest) = match read_vertex(rest, ids) {
        Ok(found) => found,
        Err(misfit) => return Err(misfit),
    };
    let (etype, rest) = read_flipped_i32(rest)?;
    let (rank, rest) = read_flipped_i64(rest)?;
    let (dst, rest) = match read_vertex(rest, ids) {
        Ok(found) => found,
        Err(misfit) => return Err(misfit),
    };
    let (_, rest) = read_placeholder(rest)?;
    let edge = EdgeId {
        src,
        etype,
        rank,
        dst,
    };
    Ok(((part, edge), rest))
}

// An out-edge has a positive type, an in-edge a negative one above the least.
#[tactic(auto, unfolding(byte_fields::specs::Reading::made_at, byte_fields::specs::Reading::such_at))]
fn read_edge_key(bytes: &[u8], ids: VidKind) -> Result<(Key, &[u8]), Misfit>
    requires { IsKind ids }
    ensures { Reads (λ x. (x.0, x.1.now)) result (made_at seen_key (such_at is_either (form_at ids)) bytes.now) }
{
    let ((part, seen), rest) = match read_form(bytes, ids) {
        Ok(found) => found,
        Err(misfit) => return Err(misfit),
    };
    if 0 < seen.etype {
        return Ok((Key::OutEdge(part, seen), rest));
    }
    if seen.etype == 0 || seen.etype == i32::MIN {
        return Err(Misfit::at(bytes));
    }
    let edge = EdgeId {
        src: seen.dst,
        etype: -seen.etype,
        rank: seen.rank,
        dst: seen.src,
    };
    Ok((Key::InEdge(part, edge), rest))
}

#[tactic(auto, unfolding(crate::specs::ReadingKeys::positive_at, byte_fields::specs::Reading::such_at))]
fn read_positive(bytes: &[u8], ids: VidKind) -> Result<((u32, EdgeId), &[u8]), Misfit>
    requires { IsKind ids }
    ensures { Reads (λ x. (x.0, x.1.now)) result (positive_at ids bytes.now) }
{
    let ((part, edge), rest) = match read_form(bytes, ids) {
        Ok(found) => found,
        Err(misfit) => return Err(misfit),
    };
    if edge.etype <= 0 {
        return Err(Misfit::at(bytes));
    }
    Ok(((part, edge), rest))
}

#[tactic(auto, unfolding(crate::specs::ReadingKeys::key_at, byte_fields::specs::Reading::byte_at, byte_fields::specs::Reading::made_at, byte_fields::specs::Reading::both_at))]
fn read_key_front(bytes: &[u8], ids: VidKind) -> Result<(Key, &[u8]), Misfit>
    requires { IsKind ids }
    ensures { Reads (λ x. (x.0, x.1.now)) result (key_at ids bytes.now) }
{
    match bytes {
        [TAG_KIND, rest @ ..] => {
            let (part, rest) = read_part(rest)?;
            let (v, rest) = match read_vertex(rest, ids) {
                Ok(found) => found,
                Err(misfit) => return Err(misfit),
            };
            let (tag, rest) = read_u32(rest)?;
            Ok((Key::Tag(part, v, tag), rest))
        }
        [EDGE_KIND, rest @ ..] => read_edge_key(rest, ids),
        [PRIME_KIND, rest @ ..] => {
            let ((part, edge), rest) = match read_positive(rest, ids) {
                Ok(found) => found,
                Err(misfit) => return Err(misfit),
            };
            Ok((Key::Prime(part, edge), rest))
        }
        [DOUBLE_KIND, rest @ ..] => {
            let ((part, edge), rest) = match read_positive(rest, ids) {
                Ok(found) => found,
                Err(misfit) => return Err(misfit),
            };
            Ok((Key::DoublePrime(part, edge), rest))
        }
        [GUARD_KIND, rest @ ..] => {
            let (part, rest) = read_part(rest)?;
            let (source, rest) = read_part(rest)?;
            Ok((Key::Guard(part, source), rest))
        }
        [CLIENT_KIND, rest @ ..] => {
            let (part, rest) = read_part(rest)?;
            let (client, rest) = read_id(rest, 0, MOST_SMALL)?;
            Ok((Key::Client(part, client), rest))
        }
        _ => Err(Misfit::at(bytes)),
    }
}

#[tactic(auto, unfolding(byte_fields::specs::Reading::whole))]
fn read_whole_key(bytes: &[u8], ids: VidKind) -> Result<Key, Misfit>
    requires { IsKind ids }
    ensures { Reads (λ k. k) result (whole (key_at ids) bytes.now) }
{
    let (found, rest) = match read_key_front(bytes, ids) {
        Ok(found) => found,
        Err(misfit) => return Err(misfit),
    };
    if !rest.is_empty() {
        return Err(Misfit::at(rest));
    }
    Ok(found)
}

/// The key that these bytes are, in a space of this kind of ids; none exactly where they are no key.
pub fn read_key(ids: VidKind, bytes: &[u8]) -> Option<Key>
    requires { IsKind ids }
    // What is read is spelled so.
    ensures found { IfSome result (λ k. FitsKey ids k × (bytes.now ≡ key ids k)) }
    // What is spelled so is read.
    ensures only { (k : Key) → FitsKey ids k → bytes.now ≡ key ids k → result ≡ Some k }
{
    match read_whole_key(bytes, ids) {
        Ok(found) => Some(found),
        Err(_) => None,
    }
}
