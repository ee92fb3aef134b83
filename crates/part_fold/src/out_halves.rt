//! The rows of out-halves, by their edges.
ghost use Rattle.std.specs.Prelude.{◌≡◌, ◌++◌, OnOk};
ghost use Rattle.std.specs.List.{filter_map};
ghost use Rattle.std.specs.Option.{option_to_list};
ghost use Rattle.graph_model.specs.Views.{is_wanted, found_out};

use crate::finding::push_found;
use graph_model::{EdgeId, Row, Types, Vid, View};
use lists::NoMemory;
use std::alloc::Global;
use std::collections::BTreeMap;
use std::marker::Model;

/// The rows of a part's out-halves; contracts see a finite map.
#[derive(Drop)]
pub struct OutHalves {
    kept: BTreeMap<EdgeId, Row>,
}

impl Model for OutHalves {
    ghost use Rattle.std.specs.FinMap as map;
    ghost use Rattle.std.specs.Coded.{coded_list};
    ghost use Rattle.std.specs.Prelude.{List};
    ghost use Rattle.graph_model.specs.Keys.{edge_cmp};
    ghost use Rattle.graph_model.specs.contracts.edge_id.EdgeId as key;
    ghost use Rattle.graph_model.specs.declared.val.Val.{Val};
    ghost use Rattle.graph_model.specs.contracts.val.Val as val;

    ghost Value = { map.FinMap edge_cmp (List Val) };

    ghost coded = { map.code key.the_row.coded (coded_list val.the_row.coded) };

    ghost view = { λ a. map.from_entries a.kept.entries };
}

impl OutHalves {
    ghost use Rattle.std.specs.FinMap as map;
    ghost use Rattle.std.specs.List.{filter_map};
    ghost use Rattle.std.specs.Option.{option_copied, is_some};
    ghost use Rattle.std.specs.Prelude.{◌≡◌, ◌++◌, OnOk};
    ghost use Rattle.graph_model.specs.Views.{found_out};

    /// No edge has a row.
    pub fn new(alloc: Global) -> OutHalves
        ensures { result ≡ map.empty }
    {
        OutHalves {
            kept: BTreeMap::new(alloc),
        }
    }

    /// The row of an edge.
    pub fn get(&self, edge: &EdgeId) -> Option<&Row>
        ensures { option_copied result ≡ map.get self.now edge.now }
    {
        self.kept.get(edge)
    }

    /// Whether an edge has a row.
    pub fn has(&self, edge: &EdgeId) -> bool
        ensures { result ≡ is_some (map.get self.now edge.now) }
    {
        self.kept.contains_key(edge)
    }

    /// The edge has this row. Refused for want of memory alone.
    pub fn put(&mut self, edge: EdgeId, row: Row) -> Result<(), NoMemory>
        ensures { OnOk result (self.new ≡ map.insert self.old edge row) }
    {
        self.kept.insert(edge, row)?;
        Ok(())
    }

    /// The edge has no row.
    pub fn remove(&mut self, edge: &EdgeId)
        ensures { self.new ≡ map.remove self.old edge.now }
    {
        self.kept.remove(edge);
    }

    /// Adds the rows of the edges that leave a vertex and have one of the types. Refused for want of memory alone.
    pub fn push_of(
        &self,
        alloc: Global,
        view: &mut View,
        v: &Vid,
        types: &Types,
    ) -> Result<(), NoMemory>
        ensures { OnOk result (view.new ≡ view.old ++ filter_map (found_out v.now types.now) (map.entries self.now)) }
    {
        // Of a map whose length was asked for it is known that its entries stand in order.
        let _count = self.kept.len();
        push_all(alloc, view, &self.kept, v, types)?;
        Ok(())
    }
}

// Whether an edge leaves the vertex, and has one of the types.
fn is_wanted(edge: &EdgeId, v: &Vid, types: &Types) -> bool
    ensures { result ≡ is_wanted v.now types.now edge.now.src edge.now.etype }
{
    if !v.cmp(&edge.src).is_eq() {
        return false;
    }
    types.has(&edge.etype)
}

// Adds the row of one edge.
fn push_one(
    alloc: Global,
    view: &mut View,
    edge: &EdgeId,
    row: &Row,
    v: &Vid,
    types: &Types,
) -> Result<(), NoMemory>
    ensures { OnOk result (view.new ≡ view.old ++ option_to_list (found_out v.now types.now (edge.now, row.now))) }
{
    if !is_wanted(edge, v, types) {
        return Ok(());
    }
    push_found(alloc, view, Some(*edge), false, row)?;
    Ok(())
}

// Adds the rows of edges.
fn push_all(
    alloc: Global,
    view: &mut View,
    kept: &BTreeMap<EdgeId, Row>,
    v: &Vid,
    types: &Types,
) -> Result<(), NoMemory>
    ensures { OnOk result (view.new ≡ view.old ++ filter_map (found_out v.now types.now) kept.now.entries) }
{
    for (edge, row) in kept.iter() {
        push_one(alloc, view, edge, row, v, types)?;
    }
    Ok(())
}
