//! How a part's in-halves get into a view.
ghost use Rattle.std.specs.Prelude.{◌≡◌, OnOk, ◌∷◌, ◌++◌};
ghost use Rattle.std.specs.List.{filter_map};
ghost use Rattle.std.specs.FinMap as map;
ghost use Rattle.first_graph.specs.Keys.{in_cmp};
ghost use Rattle.first_graph.specs.Views.{is_wanted};
ghost use Rattle.first_part.specs.Part.{found_here};

use crate::in_halves::InHalf;
use first_graph::{Half, InKey, Types, Vid, View, in_edges_of, push_found};
use lists::NoMemory;
use std::alloc::Global;
use std::collections::BTreeMap;

fn is_wanted_here(key: &InKey, v: &Vid, types: &Types) -> bool
    ensures { result ≡ is_wanted v.now types.now key.now.dst key.now.etype }
{
    key.dst == *v && types.has(key.etype)
}

/// Adds the rows of a vertex's in-halves that are here and have one of the types, in time O(log n + its edges).
#[tactic(auto, using(first_graph::proofs::MapLemmas::entries_made, first_graph::proofs::KeyLemmas::ins_total))]
pub(crate) fn push_here(
    view: &mut View,
    alloc: Global,
    inn: &BTreeMap<InKey, InHalf>,
    v: &Vid,
    types: &Types,
) -> Result<(), NoMemory>
    ensures { OnOk result (view.new ≡ view.old ++ filter_map (found_here v.now types.now) (map.entries (map.from_entries {R = in_cmp} inn.now.entries))) }
{
    for (key, kept) in inn.range(in_edges_of(v)) {
        if is_wanted_here(key, v, types) {
            if let Half::Here(row) = &kept.half {
                push_found(view, alloc, Some(key.edge()), true, row)?;
            }
        }
    }
    Ok(())
}
