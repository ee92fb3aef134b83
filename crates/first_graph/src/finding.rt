//! How rows get into a view.
ghost use Rattle.std.specs.Prelude.{◌≡◌, OnOk, [], ◌∷◌, ◌++◌};
ghost use Rattle.std.specs.List.{filter_map};
ghost use Rattle.std.specs.Ordering.{int_eq};
ghost use Rattle.first_graph.specs.Views.{found_out, found_in, is_wanted};
ghost use Rattle.first_graph.specs.Keys.{edge_cmp, in_cmp};
ghost use Rattle.std.specs.FinMap as map;

use crate::edge_id::{EdgeId, Vid};
use crate::found::{Found, View};
use crate::in_key::InKey;
use crate::ranges::{edges_of, in_edges_of};
use crate::types::Types;
use crate::val::Row;
use lists::NoMemory;
use std::alloc::Global;
use std::collections::BTreeMap;

/// Adds a copy of a row that was found. Refused for want of memory alone.
pub fn push_found(
    view: &mut View,
    alloc: Global,
    edge: Option<EdgeId>,
    inward: bool,
    row: &Row,
) -> Result<(), NoMemory>
    ensures { OnOk result (view.new ≡ view.old ++ record { edge = edge; inward = inward; row = row.now } ∷ []) }
{
    let row = row.copy(alloc)?;
    view.push(Found { edge, inward, row })
}

fn is_out_wanted(e: &EdgeId, v: &Vid, types: &Types) -> bool
    ensures { result ≡ is_wanted v.now types.now e.now.src e.now.etype }
{
    e.src == *v && types.has(e.etype)
}

fn is_in_wanted(key: &InKey, v: &Vid, types: &Types) -> bool
    ensures { result ≡ is_wanted v.now types.now key.now.dst key.now.etype }
{
    key.dst == *v && types.has(key.etype)
}

/// Adds the out-halves of a vertex that have one of the types, in time O(log n + its edges). Refused for want of memory
/// alone.
#[tactic(auto, using(crate::proofs::MapLemmas::entries_made, crate::proofs::KeyLemmas::edges_total))]
pub fn push_out(
    view: &mut View,
    alloc: Global,
    out: &BTreeMap<EdgeId, Row>,
    v: &Vid,
    types: &Types,
) -> Result<(), NoMemory>
    ensures { OnOk result (view.new ≡ view.old ++ filter_map (found_out v.now types.now) (map.entries (map.from_entries {R = edge_cmp} out.now.entries))) }
{
    for (e, row) in out.range(edges_of(v)) {
        if is_out_wanted(e, v, types) {
            push_found(view, alloc, Some(*e), false, row)?;
        }
    }
    Ok(())
}

/// Adds the in-halves of a vertex that have one of the types, in time O(log n + its edges).
#[tactic(auto, using(crate::proofs::MapLemmas::entries_made, crate::proofs::KeyLemmas::ins_total))]
pub(crate) fn push_in(
    view: &mut View,
    alloc: Global,
    inn: &BTreeMap<InKey, Row>,
    v: &Vid,
    types: &Types,
) -> Result<(), NoMemory>
    ensures { OnOk result (view.new ≡ view.old ++ filter_map (found_in v.now types.now) (map.entries (map.from_entries {R = in_cmp} inn.now.entries))) }
{
    for (key, row) in inn.range(in_edges_of(v)) {
        if is_in_wanted(key, v, types) {
            push_found(view, alloc, Some(key.edge()), true, row)?;
        }
    }
    Ok(())
}
