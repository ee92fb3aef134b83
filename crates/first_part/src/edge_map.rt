//! A map from edges.
use first_graph::{EdgeId, Row, Types, Vid, View, push_found, push_out};
use lists::NoMemory;
use std::alloc::Global;
use std::collections::BTreeMap;
use std::marker::Model;

/// A map from edges; contracts see the finite map.
#[derive(Drop)]
pub struct EdgeMap<V> {
    kept: BTreeMap<EdgeId, V>,
}

impl<V> Model for EdgeMap<V> {
    ghost use Rattle.std.specs.FinMap as map;
    ghost use Rattle.first_graph.specs.Keys.{edge_cmp};
    ghost use Rattle.first_graph.specs.contracts.edge_id.EdgeId as key;

    ghost Value = { map.FinMap edge_cmp V };

    ghost coded = { map.code key.the_row.coded V.code };

    ghost view = { λ a. map.from_entries a.kept.entries };
}

#[tactic(auto, using(first_graph::proofs::MapLemmas::get_made, first_graph::proofs::KeyLemmas::edges_total))]
impl<V: Drop> EdgeMap<V> {
    ghost use Rattle.std.specs.Prelude.{◌≡◌, OnOk, OnErr, is_some};
    ghost use Rattle.std.specs.Option.{option_copied};
    ghost use Rattle.std.specs.FinMap as map;

    /// The empty map, without memory.
    pub fn new(alloc: Global) -> Self
        ensures { result ≡ map.empty }
    {
        EdgeMap {
            kept: BTreeMap::new(alloc),
        }
    }

    /// What stands at the edge.
    pub fn get(&self, edge: EdgeId) -> Option<&V>
        ensures { option_copied result ≡ map.get self.now edge }
    {
        self.kept.get(&edge)
    }

    /// Whether something stands at the edge.
    pub fn contains(&self, edge: EdgeId) -> bool
        ensures { result ≡ is_some (map.get self.now edge) }
    {
        self.kept.contains_key(&edge)
    }

    /// Puts a value at the edge. Refused for want of memory alone, and then the map is as it was.
    pub fn insert(&mut self, edge: EdgeId, value: V) -> Result<(), NoMemory>
        ensures ok { OnOk result (self.new ≡ map.insert self.old edge value) }
        ensures err { OnErr result (self.new ≡ self.old) }
    {
        self.kept.insert(edge, value)?;
        Ok(())
    }

    /// Takes away what stands at the edge.
    pub fn remove(&mut self, edge: EdgeId)
        ensures { self.new ≡ map.remove self.old edge }
    {
        self.kept.remove(&edge);
    }
}

impl EdgeMap<Row> {
    ghost use Rattle.std.specs.Prelude.{◌≡◌, ◌++◌, OnOk, Some};
    ghost use Rattle.std.specs.List.{filter_map};
    ghost use Rattle.std.specs.FinMap as map;
    ghost use Rattle.first_graph.specs.Views.{found_out, row_alone};

    /// Adds the row of an edge, where it is here.
    pub fn push_edge(&self, view: &mut View, alloc: Global, edge: EdgeId) -> Result<(), NoMemory>
        ensures { OnOk result (view.new ≡ view.old ++ row_alone (Some edge) (map.get self.now edge)) }
    {
        match self.get(edge) {
            Some(row) => push_found(view, alloc, Some(edge), false, row),
            None => Ok(()),
        }
    }

    /// Adds the rows of a vertex's edges that have one of the types.
    pub fn push_of(
        &self,
        view: &mut View,
        alloc: Global,
        v: &Vid,
        types: &Types,
    ) -> Result<(), NoMemory>
        ensures { OnOk result (view.new ≡ view.old ++ filter_map (found_out v.now types.now) (map.entries self.now)) }
    {
        push_out(view, alloc, &self.kept, v, types)
    }
}
