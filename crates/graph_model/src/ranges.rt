//! Where a vertex' edges lie among the keys of a map: between the ids before and after it.
ghost use Rattle.std.specs.Prelude.{◌≡◌, ◌<◌, ◌++◌, ◌∷◌, List, ℕ, length, IfSome};
ghost use Rattle.graph_model.specs.Keys.{name_cmp, edge_cmp, in_cmp};
ghost use Rattle.graph_model.specs.Ranges.{IsBefore, StartsBefore, EndsAfter, RunsForward, HoldsAllOf};
ghost use Rattle.graph_model.specs.declared.vid.Vid.TheVariants as ids;

use crate::edge_id::EdgeId;
use crate::in_key::InKey;
use crate::name::Name;
use crate::vid::Vid;
use std::ops::Bound;

/// The range of the keys of the edges that leave a vertex.
pub fn edges_of(v: &Vid) -> (Bound<EdgeId>, Bound<EdgeId>)
    ensures forward { RunsForward edge_cmp result }
    ensures inside { HoldsAllOf edge_cmp (λ e. e.src) v.now result }
{
    (edges_start(v), edges_end(v))
}

fn edges_start(v: &Vid) -> Bound<EdgeId>
    ensures { StartsBefore (λ e. e.src) v.now result }
{
    let Some(src) = id_before(v) else {
        return Bound::Unbounded;
    };
    Bound::Excluded(EdgeId {
        src,
        etype: i32::MAX,
        rank: i64::MAX,
        dst: Vid::Num(i64::MAX),
    })
}

fn edges_end(v: &Vid) -> Bound<EdgeId>
    ensures { EndsAfter (λ e. e.src) v.now result }
{
    let Some(src) = id_after(v) else {
        return Bound::Unbounded;
    };
    Bound::Excluded(EdgeId {
        src,
        etype: i32::MIN,
        rank: i64::MIN,
        dst: Vid::Num(i64::MIN),
    })
}

/// The range of the keys of the in-halves of the edges that enter a vertex.
pub fn in_edges_of(v: &Vid) -> (Bound<InKey>, Bound<InKey>)
    ensures forward { RunsForward in_cmp result }
    ensures inside { HoldsAllOf in_cmp (λ k. k.dst) v.now result }
{
    (in_edges_start(v), in_edges_end(v))
}

fn in_edges_start(v: &Vid) -> Bound<InKey>
    ensures { StartsBefore (λ k. k.dst) v.now result }
{
    let Some(dst) = id_before(v) else {
        return Bound::Unbounded;
    };
    Bound::Excluded(InKey {
        dst,
        back: i64::MAX,
        rank: i64::MAX,
        src: Vid::Num(i64::MAX),
        etype: i32::MAX,
    })
}

fn in_edges_end(v: &Vid) -> Bound<InKey>
    ensures { EndsAfter (λ k. k.dst) v.now result }
{
    let Some(dst) = id_after(v) else {
        return Bound::Unbounded;
    };
    Bound::Excluded(InKey {
        dst,
        back: i64::MIN,
        rank: i64::MIN,
        src: Vid::Num(i64::MIN),
        etype: i32::MIN,
    })
}

/// An id before this one, with next to none between the two; none of the least.
fn id_before(v: &Vid) -> Option<Vid>
    ensures { IfSome result (λ w. IsBefore w v.now) }
{
    match v {
        Vid::Num(number) => {
            if *number == i64::MIN {
                return None;
            }
            Some(Vid::Num(*number - 1))
        }
        Vid::Name(name) => name_before(name),
    }
}

/// An id after this one, with next to none between the two; none of the greatest.
fn id_after(v: &Vid) -> Option<Vid>
    ensures { IfSome result (λ w. IsBefore v.now w) }
{
    match v {
        Vid::Num(number) => {
            if *number == i64::MAX {
                return Some(Vid::Name(Name::new(&[])));
            }
            Some(Vid::Num(*number + 1))
        }
        Vid::Name(name) => name_after(name),
    }
}

// The last byte of the text falls by one, and the rest is filled up with the greatest.
fn name_before(name: &Name) -> Option<Vid>
    ensures { IfSome result (λ w. IsBefore w (ids.Name name.now)) }
{
    let Some((last, front)) = name.as_slice().split_last() else {
        return Some(Vid::Num(i64::MAX));
    };
    if *last == 0 {
        return None;
    }
    Some(Vid::Name(filled_from(front, *last - 1, 255)))
}

// One byte more, or the last byte rises by one.
fn name_after(name: &Name) -> Option<Vid>
    ensures { IfSome result (λ w. IsBefore (ids.Name name.now) w) }
{
    let text = name.as_slice();
    if text.len() < 32 {
        return Some(Vid::Name(filled_from(text, 1, 0)));
    }
    let Some((last, front)) = text.split_last() else {
        return None;
    };
    if *last == 255 {
        return None;
    }
    Some(Vid::Name(filled_from(front, *last + 1, 0)))
}

// A name of 32 bytes that begins with these and this one.
fn filled_from(front: &[u8], byte: u8, fill: u8) -> Name
    requires { length front.now < 32 }
    ensures { (tail : List ℕ) × (result.bytes ≡ front.now ++ byte ∷ tail) }
{
    let mut bytes = [fill; 32];
    bytes[..front.len()].copy_from_slice(front);
    bytes[front.len()] = byte;
    Name::new(&bytes)
}
