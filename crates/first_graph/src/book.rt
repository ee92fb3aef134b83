//! The calls that were invoked, by their ids.
use crate::call::{Call, CallState};
use crate::call_id::CallId;
use lists::NoMemory;
use std::alloc::Global;
use std::collections::BTreeMap;
use std::marker::Model;

/// The calls that were invoked, by their ids.
#[derive(Drop)]
pub struct Book {
    kept: BTreeMap<CallId, Call>,
}

impl Model for Book {
    ghost use Rattle.std.specs.FinMap as map;
    ghost use Rattle.first_graph.specs.Keys.{call_cmp};
    ghost use Rattle.first_graph.specs.declared.call.Call.{Call};
    ghost use Rattle.first_graph.specs.contracts.call.Call as value;
    ghost use Rattle.first_graph.specs.contracts.call_id.CallId as key;

    ghost Value = { map.FinMap call_cmp Call };

    ghost coded = { map.code key.the_row.coded value.the_row.coded };

    ghost view = { λ a. map.from_entries a.kept.entries };
}

impl Book {
    ghost use Rattle.std.specs.Prelude.{◌≡◌, OnOk, OnErr, is_some};
    ghost use Rattle.std.specs.Option.{option_copied};
    ghost use Rattle.std.specs.FinMap as map;
    ghost use Rattle.first_graph.specs.Maps.{altered};
    ghost use Rattle.first_graph.specs.Marks.{with_state, with_shown, with_said};

    pub fn new(alloc: Global) -> Self
        ensures { result ≡ map.empty }
    {
        Book {
            kept: BTreeMap::new(alloc),
        }
    }

    pub fn get(&self, key: CallId) -> Option<&Call>
        ensures { option_copied result ≡ map.get self.now key }
    {
        self.kept.get(&key)
    }

    pub fn has(&self, key: CallId) -> bool
        ensures { result ≡ is_some (map.get self.now key) }
    {
        self.kept.contains_key(&key)
    }

    pub fn put(&mut self, key: CallId, value: Call) -> Result<(), NoMemory>
        ensures ok { OnOk result (self.new ≡ map.insert self.old key value) }
        ensures err { OnErr result (self.new ≡ self.old) }
    {
        self.kept.insert(key, value)?;
        Ok(())
    }

    pub fn set_state(&mut self, key: CallId, state: CallState)
        ensures { self.new ≡ altered self.old key (with_state state) }
    {
        let Some(value) = self.kept.get_mut(&key) else {
            return;
        };
        value.state = state;
    }

    pub fn mark_shown(&mut self, key: CallId)
        ensures { self.new ≡ altered self.old key with_shown }
    {
        let Some(value) = self.kept.get_mut(&key) else {
            return;
        };
        value.shown = true;
    }

    pub fn mark_said(&mut self, key: CallId)
        ensures { self.new ≡ altered self.old key with_said }
    {
        let Some(value) = self.kept.get_mut(&key) else {
            return;
        };
        value.said = true;
    }
}
