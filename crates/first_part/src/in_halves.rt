//! The in-halves of a part.
use crate::finding::push_here;
use first_graph::{EdgeId, Half, InKey, Types, Vid, View};
use lists::NoMemory;
use std::alloc::Global;
use std::collections::BTreeMap;
use std::marker::Model;

/// An in-half, and the number of the chain that wrote it. One that was deleted stays as a marker of that number.
#[derive(Drop)]
pub struct InHalf {
    /// The chain's number.
    pub v: u64,
    /// The half.
    pub half: Half,
}

/// The in-halves of a part; contracts see the finite map.
#[derive(Drop)]
pub struct InHalves {
    kept: BTreeMap<InKey, InHalf>,
}

impl Model for InHalves {
    ghost use Rattle.std.specs.FinMap as map;
    ghost use Rattle.first_graph.specs.Keys.{in_cmp};
    ghost use Rattle.first_graph.specs.contracts.in_key.InKey as key;
    ghost use Rattle.first_part.specs.declared.in_halves.InHalf.{InHalf};
    ghost use Rattle.first_part.specs.contracts.in_halves.InHalf as value;

    ghost Value = { map.FinMap in_cmp InHalf };

    ghost coded = { map.code key.the_row.coded value.the_row.coded };

    ghost view = { λ a. map.from_entries a.kept.entries };
}

impl InHalves {
    ghost use Rattle.std.specs.Prelude.{◌≡◌, OnOk, OnErr};
    ghost use Rattle.std.specs.FinMap as map;
    ghost use Rattle.std.specs.Prelude.{◌++◌};
    ghost use Rattle.std.specs.List.{filter_map};
    ghost use Rattle.first_graph.specs.Keys.{in_key};
    ghost use Rattle.first_part.specs.InHalf.{number_of};
    ghost use Rattle.first_part.specs.Part.{found_here};

    /// No in-half; without memory.
    pub fn new(alloc: Global) -> Self
        ensures { result ≡ map.empty }
    {
        InHalves {
            kept: BTreeMap::new(alloc),
        }
    }

    /// The number of the chain that wrote the edge's in-half last, 0 where none did.
    pub fn number(&self, edge: EdgeId) -> u64
        ensures { result ≡ number_of (map.get self.now (in_key edge)) }
    {
        let key = InKey::of(edge);
        match self.kept.get(&key) {
            Some(kept) => kept.v,
            None => 0,
        }
    }

    /// Adds the rows of a vertex's in-halves that are here and have one of the types.
    pub fn push_of(
        &self,
        view: &mut View,
        alloc: Global,
        v: &Vid,
        types: &Types,
    ) -> Result<(), NoMemory>
        ensures { OnOk result (view.new ≡ view.old ++ filter_map (found_here v.now types.now) (map.entries self.now)) }
    {
        push_here(view, alloc, &self.kept, v, types)
    }

    /// Writes an in-half. Refused for want of memory alone, and then all is as it was.
    pub fn write(&mut self, edge: EdgeId, half: InHalf) -> Result<(), NoMemory>
        ensures ok { OnOk result (self.new ≡ map.insert self.old (in_key edge) half) }
        ensures err { OnErr result (self.new ≡ self.old) }
    {
        let key = InKey::of(edge);
        self.kept.insert(key, half)?;
        Ok(())
    }
}
