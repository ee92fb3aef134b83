//! Where a vertex' edges lie among the keys of a map.
ghost use Rattle.std.specs.Prelude.{◌≡◌};
ghost use Rattle.first_graph.specs.Keys.{edge_cmp, in_cmp};
ghost use Rattle.first_graph.specs.Ranges.{StartsBefore, EndsAfter, RunsForward, HoldsAllOf};

use crate::edge_id::{EdgeId, Vid};
use crate::in_key::InKey;
use std::ops::Bound;

/// The range of the keys of the edges that leave a vertex.
pub fn edges_of(v: &Vid) -> (Bound<EdgeId>, Bound<EdgeId>)
    ensures forward { RunsForward edge_cmp result }
    ensures inside { HoldsAllOf edge_cmp (λ e. e.src) v.now result }
{
    (edges_start(v), edges_end(v))
}

// The greatest key of the vertex before.
fn edges_start(v: &Vid) -> Bound<EdgeId>
    ensures { StartsBefore (λ e. e.src) v.now result }
{
    if *v == i64::MIN {
        return Bound::Unbounded;
    }
    Bound::Excluded(EdgeId {
        src: *v - 1,
        etype: i32::MAX,
        rank: i64::MAX,
        dst: i64::MAX,
    })
}

// The least key of the vertex after.
fn edges_end(v: &Vid) -> Bound<EdgeId>
    ensures { EndsAfter (λ e. e.src) v.now result }
{
    if *v == i64::MAX {
        return Bound::Unbounded;
    }
    Bound::Excluded(EdgeId {
        src: *v + 1,
        etype: i32::MIN,
        rank: i64::MIN,
        dst: i64::MIN,
    })
}

/// The range of the keys of the in-halves of the edges that enter a vertex.
pub fn in_edges_of(v: &Vid) -> (Bound<InKey>, Bound<InKey>)
    ensures forward { RunsForward in_cmp result }
    ensures inside { HoldsAllOf in_cmp (λ k. k.dst) v.now result }
{
    (in_edges_start(v), in_edges_end(v))
}

// The greatest key of the vertex before.
fn in_edges_start(v: &Vid) -> Bound<InKey>
    ensures { StartsBefore (λ k. k.dst) v.now result }
{
    if *v == i64::MIN {
        return Bound::Unbounded;
    }
    Bound::Excluded(InKey {
        dst: *v - 1,
        back: i64::MAX,
        rank: i64::MAX,
        src: i64::MAX,
        etype: i32::MAX,
    })
}

// The least key of the vertex after.
fn in_edges_end(v: &Vid) -> Bound<InKey>
    ensures { EndsAfter (λ k. k.dst) v.now result }
{
    if *v == i64::MAX {
        return Bound::Unbounded;
    }
    Bound::Excluded(InKey {
        dst: *v + 1,
        back: i64::MIN,
        rank: i64::MIN,
        src: i64::MIN,
        etype: i32::MIN,
    })
}
