//! In-halves, by their keys.
ghost use Rattle.std.specs.Prelude.{◌≡◌, ◌++◌, OnOk};
ghost use Rattle.std.specs.List.{filter_map};
ghost use Rattle.std.specs.Option.{option_to_list};
ghost use Rattle.graph_model.specs.Views.{is_wanted};
ghost use Rattle.part_fold.specs.Shown.{found_of};

use crate::finding::push_found;
use graph_model::{EdgeId, Half, InKey, Types, Vid, View};
use lists::NoMemory;
use part_keys::InHalf;
use std::alloc::Global;
use std::collections::BTreeMap;
use std::marker::Model;

/// The in-halves of a part, each with the number of the chain that wrote it; contracts see a finite map.
#[derive(Drop)]
pub struct InHalves {
    kept: BTreeMap<InKey, InHalf>,
}

impl Model for InHalves {
    ghost use Rattle.std.specs.FinMap as map;
    ghost use Rattle.graph_model.specs.Keys.{in_cmp};
    ghost use Rattle.graph_model.specs.contracts.in_key.InKey as key;
    ghost use Rattle.part_keys.specs.declared.in_half.InHalf.{InHalf};
    ghost use Rattle.part_keys.specs.contracts.in_half.InHalf as value;

    ghost Value = { map.FinMap in_cmp InHalf };

    ghost coded = { map.code key.the_row.coded value.the_row.coded };

    ghost view = { λ a. map.from_entries a.kept.entries };
}

impl InHalves {
    ghost use Rattle.std.specs.FinMap as map;
    ghost use Rattle.std.specs.List.{filter_map};
    ghost use Rattle.std.specs.Prelude.{◌≡◌, ◌++◌, OnOk};
    ghost use Rattle.graph_model.specs.Keys.{in_key};
    ghost use Rattle.part_rules.specs.Part.{number_in};
    ghost use Rattle.part_fold.specs.Shown.{found_of};

    /// None is written.
    pub fn new(alloc: Global) -> InHalves
        ensures { result ≡ map.empty }
    {
        InHalves {
            kept: BTreeMap::new(alloc),
        }
    }

    /// The number of the chain that wrote the in-half of the edge, 0 where none did.
    pub fn number(&self, edge: EdgeId) -> u64
        ensures { result ≡ number_in (map.get self.now (in_key edge)) }
    {
        let key = InKey::of(edge);
        match self.kept.get(&key) {
            Some(half) => half.v,
            None => 0,
        }
    }

    /// Writes the in-half of an edge. Refused for want of memory alone.
    pub fn put(&mut self, edge: EdgeId, half: InHalf) -> Result<(), NoMemory>
        ensures { OnOk result (self.new ≡ map.insert self.old (in_key edge) half) }
    {
        let key = InKey::of(edge);
        self.kept.insert(key, half)?;
        Ok(())
    }

    /// Adds the rows of the in-halves of a vertex that are here and have one of the types. Refused for want of memory alone.
    pub fn push_of(
        &self,
        alloc: Global,
        view: &mut View,
        v: &Vid,
        types: &Types,
    ) -> Result<(), NoMemory>
        ensures { OnOk result (view.new ≡ view.old ++ filter_map (found_of v.now types.now) (map.entries self.now)) }
    {
        // Of a map whose length was asked for it is known that its entries stand in order.
        let _count = self.kept.len();
        push_all(alloc, view, &self.kept, v, types)?;
        Ok(())
    }
}

// Whether an in-half is the vertex's, and has one of the types.
fn is_wanted(key: &InKey, v: &Vid, types: &Types) -> bool
    ensures { result ≡ is_wanted v.now types.now key.now.dst key.now.etype }
{
    if !v.cmp(&key.dst).is_eq() {
        return false;
    }
    types.has(&key.etype)
}

// Adds the row of one in-half.
fn push_one(
    alloc: Global,
    view: &mut View,
    key: &InKey,
    kept: &InHalf,
    v: &Vid,
    types: &Types,
) -> Result<(), NoMemory>
    ensures { OnOk result (view.new ≡ view.old ++ option_to_list (found_of v.now types.now (key.now, kept.now))) }
{
    let Half::Here(row) = &kept.half else {
        return Ok(());
    };
    if !is_wanted(key, v, types) {
        return Ok(());
    }
    push_found(alloc, view, Some(key.edge()), true, row)?;
    Ok(())
}

// Adds the rows of in-halves.
fn push_all(
    alloc: Global,
    view: &mut View,
    kept: &BTreeMap<InKey, InHalf>,
    v: &Vid,
    types: &Types,
) -> Result<(), NoMemory>
    ensures { OnOk result (view.new ≡ view.old ++ filter_map (found_of v.now types.now) kept.now.entries) }
{
    for (key, half) in kept.iter() {
        push_one(alloc, view, key, half, v, types)?;
    }
    Ok(())
}
