//! Which steps changed something of which vertices.
ghost use Rattle.std.specs.Prelude.{◌≡◌, ◌≤◌, ◌<◌, ℕ, true, map, IfSome, IfNone, OnOk};
ghost use Rattle.maps.specs.Keys.{has_key};
ghost use Rattle.graph_model.specs.Keys.{vid_cmp};
ghost use Rattle.graph_model.specs.Marks.{has_mark, far_end, IsNext, AreNone, Grows};
ghost use Rattle.graph_model.specs.declared.vid.Vid.{Vid};
ghost use Rattle.graph_model.specs.declared.mark.Mark.{Mark};

use crate::edge_id::EdgeId;
use crate::half::Half;
use crate::mark::Mark;
use crate::vid::Vid;
use lists::NoMemory;
use std::collections::BTreeMap;

/// The first step at or behind one and below another that is marked at the vertex, in time O(log n).
pub(crate) fn next_mark(marks: &BTreeMap<Mark, ()>, v: &Vid, from: u64, to: u64) -> Option<u64>
    ensures next { IfSome result (IsNext marks.now.entries v.now from to) }
    ensures none { IfNone result (AreNone marks.now.entries v.now from to) }
{
    let first = Mark::of(v, from);
    let Some((mark, _)) = marks.range(first..).next() else {
        return None;
    };
    if !mark.is_of(v) {
        return None;
    }
    if mark.step >= to {
        return None;
    }
    Some(mark.step)
}

/// Marks a step at a vertex. Refused for want of memory alone.
pub(crate) fn mark_at(marks: &mut BTreeMap<Mark, ()>, v: &Vid, step: u64) -> Result<(), NoMemory>
    ensures grows { Grows marks.old.entries marks.new.entries }
    ensures marked { OnOk result (has_mark marks.new.entries v.now step ≡ true) }
{
    marks.insert(Mark::of(v, step), ())?;
    Ok(())
}

/// Marks a step at one end of each of these edges: where they enter, or where they leave. Refused for want of memory alone.
pub(crate) fn mark_ends(
    marks: &mut BTreeMap<Mark, ()>,
    list: &[(EdgeId, Half)],
    inward: bool,
    step: u64,
) -> Result<(), NoMemory>
    ensures grows { Grows marks.old.entries marks.new.entries }
    ensures marked { OnOk result ((v : Vid) → has_key vid_cmp v (map (λ x. far_end inward x.0) list.now) ≡ true → has_mark marks.new.entries v step ≡ true) }
{
    for half in list {
        let end = end_of(&half.0, inward);
        mark_at(marks, &end, step)?;
    }
    Ok(())
}

fn end_of(edge: &EdgeId, inward: bool) -> Vid
    ensures { result ≡ far_end inward edge.now }
{
    if inward {
        return edge.dst;
    }
    edge.src
}
