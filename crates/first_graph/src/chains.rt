//! The chains that are under way, by their edges.
use crate::chain::Chain;
use crate::edge_id::EdgeId;
use lists::NoMemory;
use std::alloc::Global;
use std::collections::BTreeMap;
use std::marker::Model;

/// The chains that are under way, by their edges.
#[derive(Drop)]
pub struct Chains {
    kept: BTreeMap<EdgeId, Chain>,
}

impl Model for Chains {
    ghost use Rattle.std.specs.FinMap as map;
    ghost use Rattle.first_graph.specs.Keys.{edge_cmp};
    ghost use Rattle.first_graph.specs.declared.chain.Chain.{Chain};
    ghost use Rattle.first_graph.specs.contracts.chain.Chain as value;
    ghost use Rattle.first_graph.specs.contracts.edge_id.EdgeId as key;

    ghost Value = { map.FinMap edge_cmp Chain };

    ghost coded = { map.code key.the_row.coded value.the_row.coded };

    ghost view = { λ a. map.from_entries a.kept.entries };
}

impl Chains {
    ghost use Rattle.std.specs.Prelude.{◌≡◌, OnOk, OnErr, is_some};
    ghost use Rattle.std.specs.Option.{option_copied};
    ghost use Rattle.std.specs.FinMap as map;
    ghost use Rattle.first_graph.specs.Maps.{altered};
    ghost use Rattle.first_graph.specs.Marks.{with_in_done, with_out_done};

    pub fn new(alloc: Global) -> Self
        ensures { result ≡ map.empty }
    {
        Chains {
            kept: BTreeMap::new(alloc),
        }
    }

    pub fn get(&self, key: EdgeId) -> Option<&Chain>
        ensures { option_copied result ≡ map.get self.now key }
    {
        self.kept.get(&key)
    }

    pub fn has(&self, key: EdgeId) -> bool
        ensures { result ≡ is_some (map.get self.now key) }
    {
        self.kept.contains_key(&key)
    }

    pub fn put(&mut self, key: EdgeId, value: Chain) -> Result<(), NoMemory>
        ensures ok { OnOk result (self.new ≡ map.insert self.old key value) }
        ensures err { OnErr result (self.new ≡ self.old) }
    {
        self.kept.insert(key, value)?;
        Ok(())
    }

    pub fn remove(&mut self, key: EdgeId)
        ensures { self.new ≡ map.remove self.old key }
    {
        self.kept.remove(&key);
    }

    pub fn mark_in(&mut self, key: EdgeId)
        ensures { self.new ≡ altered self.old key with_in_done }
    {
        let Some(value) = self.kept.get_mut(&key) else {
            return;
        };
        value.in_done = true;
    }

    pub fn mark_out(&mut self, key: EdgeId)
        ensures { self.new ≡ altered self.old key with_out_done }
    {
        let Some(value) = self.kept.get_mut(&key) else {
            return;
        };
        value.out_done = true;
    }
}
