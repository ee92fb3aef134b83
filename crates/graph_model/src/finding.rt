//! How rows get into a view.
ghost use Rattle.std.specs.Prelude.{◌≡◌, OnOk, [], ◌∷◌, ◌++◌};
ghost use Rattle.std.specs.Option.{option_to_list};
ghost use Rattle.std.specs.List.{filter_map};
ghost use Rattle.maps.specs.Places.{place_read};
ghost use Rattle.graph_model.specs.Views.{found_out, found_in, is_wanted};

use crate::edge_id::EdgeId;
use crate::found::{Found, View};
use crate::in_key::InKey;
use crate::ranges::{edges_of, in_edges_of};
use crate::types::Types;
use crate::val::Row;
use crate::vid::Vid;
use lists::NoMemory;
use std::alloc::Global;
use std::collections::BTreeMap;

/// Adds a copy of a row that was found. Refused for want of memory alone.
pub fn push_found(
    view: &mut View,
    alloc: Global,
    edge: Option<EdgeId>,
    inward: bool,
    row: &Row,
) -> Result<(), NoMemory>
    ensures { OnOk result (view.new ≡ view.old ++ record { edge = edge; inward = inward; row = row.now } ∷ []) }
{
    let row = row.copy(alloc)?;
    view.push(Found { edge, inward, row })
}

/// Adds the row of a place, if it is here, of the vertex and of one of the types. Refused for want of memory alone.
fn push_out_place(
    view: &mut View,
    alloc: Global,
    e: &EdgeId,
    place: &Option<Row>,
    v: &Vid,
    types: &Types,
) -> Result<(), NoMemory>
    ensures { OnOk result (view.new ≡ view.old ++ option_to_list (place_read (found_out v.now types.now) e.now place.now)) }
{
    let Some(row) = place else {
        return Ok(());
    };
    if !is_out_wanted(e, v, types) {
        return Ok(());
    }
    push_found(view, alloc, Some(*e), false, row)?;
    Ok(())
}

fn is_out_wanted(e: &EdgeId, v: &Vid, types: &Types) -> bool
    ensures { result ≡ is_wanted v.now types.now e.now.src e.now.etype }
{
    if !v.cmp(&e.src).is_eq() {
        return false;
    }
    types.has(&e.etype)
}

/// Adds the out-halves of a vertex that have one of the types, in time O(log n + its edges). Refused for want of memory
/// alone.
pub fn push_out(
    view: &mut View,
    alloc: Global,
    places: &BTreeMap<EdgeId, Option<Row>>,
    v: &Vid,
    types: &Types,
) -> Result<(), NoMemory>
    ensures { OnOk result (view.new ≡ view.old ++ filter_map (λ e. place_read (found_out v.now types.now) e.0 e.1) places.now.entries) }
{
    for (key, place) in places.range(edges_of(v)) {
        push_out_place(view, alloc, key, place, v, types)?;
    }
    Ok(())
}

/// Adds the row of a place, if it is here, of the vertex and of one of the types. Refused for want of memory alone.
fn push_in_place(
    view: &mut View,
    alloc: Global,
    key: &InKey,
    place: &Option<Row>,
    v: &Vid,
    types: &Types,
) -> Result<(), NoMemory>
    ensures { OnOk result (view.new ≡ view.old ++ option_to_list (place_read (found_in v.now types.now) key.now place.now)) }
{
    let Some(row) = place else {
        return Ok(());
    };
    if !is_in_wanted(key, v, types) {
        return Ok(());
    }
    push_found(view, alloc, Some(key.edge()), true, row)?;
    Ok(())
}

fn is_in_wanted(key: &InKey, v: &Vid, types: &Types) -> bool
    ensures { result ≡ is_wanted v.now types.now key.now.dst key.now.etype }
{
    if !v.cmp(&key.dst).is_eq() {
        return false;
    }
    types.has(&key.etype)
}

/// Adds the in-halves of a vertex that have one of the types, in time O(log n + its edges). Refused for want of memory
/// alone.
pub fn push_in(
    view: &mut View,
    alloc: Global,
    places: &BTreeMap<InKey, Option<Row>>,
    v: &Vid,
    types: &Types,
) -> Result<(), NoMemory>
    ensures { OnOk result (view.new ≡ view.old ++ filter_map (λ e. place_read (found_in v.now types.now) e.0 e.1) places.now.entries) }
{
    for (key, place) in places.range(in_edges_of(v)) {
        push_in_place(view, alloc, key, place, v, types)?;
    }
    Ok(())
}
