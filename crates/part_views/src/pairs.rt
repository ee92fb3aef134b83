//! What pairs of a part's store show of a vertex's edges.
ghost use Rattle.std.specs.Prelude.{◌≡◌, ◌++◌, OnOk};
ghost use Rattle.std.specs.List.{filter_map};
ghost use Rattle.std.specs.Option.{option_to_list};
ghost use Rattle.graph_model.specs.Views.{is_wanted};
ghost use Rattle.part_keys.specs.Keys.{IsKind};
ghost use Rattle.part_views.specs.Views.{out_shown, in_shown};

use crate::values::{here_in, key_in, row_in};
use graph_model::{EdgeId, Found, Types, Vid, View};
use lists::{Bytes, NoMemory};
use part_keys::{Key, VidKind};
use std::alloc::Global;

// Whether an edge has this end, and one of the types.
fn is_wanted(v: &Vid, types: &Types, end: &Vid, etype: &i32) -> bool
    ensures { result ≡ is_wanted v.now types.now end.now etype.now }
{
    if !v.cmp(end).is_eq() {
        return false;
    }
    types.has(etype)
}

// Adds what a pair shows of the edges that leave the vertex.
fn push_out(
    view: &mut View,
    alloc: Global,
    ids: VidKind,
    v: &Vid,
    types: &Types,
    pair: &(Bytes, Bytes),
) -> Result<(), NoMemory>
    requires { IsKind ids }
    ensures { OnOk result (view.new ≡ view.old ++ option_to_list (out_shown ids v.now types.now pair.now)) }
{
    let Some(Key::OutEdge(_, e)) = key_in(ids, pair.0.as_slice()) else {
        return Ok(());
    };
    if !is_wanted(v, types, &e.src, &e.etype) {
        return Ok(());
    }
    let Some(row) = row_in(alloc, pair.1.as_slice())? else {
        return Ok(());
    };
    view.push(Found {
        edge: Some(e),
        inward: false,
        row,
    })
}

// Adds what a pair shows of the edges that enter the vertex.
fn push_in(
    view: &mut View,
    alloc: Global,
    ids: VidKind,
    v: &Vid,
    types: &Types,
    pair: &(Bytes, Bytes),
) -> Result<(), NoMemory>
    requires { IsKind ids }
    ensures { OnOk result (view.new ≡ view.old ++ option_to_list (in_shown ids v.now types.now pair.now)) }
{
    let Some(Key::InEdge(_, e)) = key_in(ids, pair.0.as_slice()) else {
        return Ok(());
    };
    if !is_wanted(v, types, &e.dst, &e.etype) {
        return Ok(());
    }
    let Some(row) = here_in(alloc, pair.1.as_slice())? else {
        return Ok(());
    };
    view.push(Found {
        edge: Some(e),
        inward: true,
        row,
    })
}

/// Adds what the pairs show of the edges that leave the vertex. Refused for want of memory alone.
pub(crate) fn push_outs(
    view: &mut View,
    alloc: Global,
    ids: VidKind,
    v: &Vid,
    types: &Types,
    pairs: &[(Bytes, Bytes)],
) -> Result<(), NoMemory>
    requires { IsKind ids }
    ensures { OnOk result (view.new ≡ view.old ++ filter_map (out_shown ids v.now types.now) pairs.now) }
{
    for pair in pairs {
        push_out(view, alloc, ids, v, types, pair)?;
    }
    Ok(())
}

/// Adds what the pairs show of the edges that enter the vertex. Refused for want of memory alone.
pub(crate) fn push_ins(
    view: &mut View,
    alloc: Global,
    ids: VidKind,
    v: &Vid,
    types: &Types,
    pairs: &[(Bytes, Bytes)],
) -> Result<(), NoMemory>
    requires { IsKind ids }
    ensures { OnOk result (view.new ≡ view.old ++ filter_map (in_shown ids v.now types.now) pairs.now) }
{
    for pair in pairs {
        push_in(view, alloc, ids, v, types, pair)?;
    }
    Ok(())
}
