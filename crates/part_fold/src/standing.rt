//! The chains that stand in a part, by number.
ghost use Rattle.std.specs.Prelude.{◌≡◌, ◌++◌, map, nat_lt, IfOk};
ghost use Rattle.std.specs.List.{filter};
ghost use Rattle.std.specs.Option.{option_map};
ghost use Rattle.part_rules.specs.Part.{is_on, chain_among};
ghost use Rattle.part_fold.specs.Standing.{id_of, rec_of, is_behind};

use graph_model::{CallId, EdgeId};
use lists::{Listed, NoMemory};
use part_keys::PrimeRec;
use std::alloc::Global;
use std::collections::BTreeMap;
use std::marker::Model;

/// The chains that stand in a part, by number; contracts see a finite map.
#[derive(Drop)]
pub struct Standing {
    kept: BTreeMap<u64, PrimeRec>,
}

impl Model for Standing {
    ghost use Rattle.std.specs.Coded.{coded_ℕ};
    ghost use Rattle.std.specs.FinMap as map;
    ghost use Rattle.std.specs.Ordering.{nat_cmp};
    ghost use Rattle.part_keys.specs.declared.chain.PrimeRec.{PrimeRec};
    ghost use Rattle.part_keys.specs.contracts.chain.PrimeRec as value;

    ghost Value = { map.FinMap nat_cmp PrimeRec };

    ghost coded = { map.code coded_ℕ value.the_row.coded };

    ghost view = { λ a. map.from_entries a.kept.entries };
}

impl Standing {
    ghost use Rattle.std.specs.FinMap as map;
    ghost use Rattle.std.specs.List.{filter};
    ghost use Rattle.std.specs.Option.{option_copied, option_map, is_some};
    ghost use Rattle.std.specs.Prelude.{◌≡◌, OnOk, IfOk};
    ghost use Rattle.std.specs.Prelude as prelude;
    ghost use Rattle.part_rules.specs.Part.{chain_among};
    ghost use Rattle.part_fold.specs.Standing.{id_of, rec_of, is_behind};

    /// No chain stands.
    pub fn new(alloc: Global) -> Standing
        ensures { result ≡ map.empty }
    {
        Standing {
            kept: BTreeMap::new(alloc),
        }
    }

    /// The chain of a number.
    pub fn get(&self, v: u64) -> Option<&PrimeRec>
        ensures { option_copied result ≡ map.get self.now v }
    {
        self.kept.get(&v)
    }

    /// Whether the chain of a number stands.
    pub fn has(&self, v: u64) -> bool
        ensures { result ≡ is_some (map.get self.now v) }
    {
        self.kept.contains_key(&v)
    }

    /// Puts a chain under its number, in the place of the one before. Refused for want of memory alone.
    pub fn put(&mut self, v: u64, chain: PrimeRec) -> Result<(), NoMemory>
        ensures { OnOk result (self.new ≡ map.insert self.old v chain) }
    {
        self.kept.insert(v, chain)?;
        Ok(())
    }

    /// Takes a chain out.
    pub fn remove(&mut self, v: u64) -> Option<PrimeRec>
        ensures chain { result ≡ map.get self.old v }
        ensures others { self.new ≡ map.remove self.old v }
    {
        self.kept.remove(&v)
    }

    /// The call of the first chain that is on the edge.
    pub fn on(&self, edge: &EdgeId) -> Option<CallId>
        ensures { result ≡ option_map id_of (chain_among (map.entries self.now) edge.now) }
    {
        // Of a map whose length was asked for it is known that its entries stand in order.
        let _count = self.kept.len();
        first_on(&self.kept, edge)
    }

    /// Copies of the chains behind a number, by rising number. Refused for want of memory alone.
    pub fn behind(&self, alloc: Global, after: u64) -> Result<Listed<PrimeRec>, NoMemory>
        ensures { IfOk result (λ list. list ≡ prelude.map rec_of (filter (is_behind after) (map.entries self.now))) }
    {
        // Of a map whose length was asked for it is known that its entries stand in order.
        let _count = self.kept.len();
        let list = all_behind(alloc, &self.kept, after)?;
        Ok(list)
    }
}

// Whether the chain is on the edge.
fn is_on(edge: &EdgeId, chain: &PrimeRec) -> bool
    ensures { result ≡ is_on edge.now chain.now }
{
    for half in chain.list.as_slice() {
        if edge.equals(&half.0) {
            return true;
        }
    }
    false
}

// The call of the first of these chains that is on the edge.
fn first_on(kept: &BTreeMap<u64, PrimeRec>, edge: &EdgeId) -> Option<CallId>
    ensures { result ≡ option_map id_of (chain_among kept.now.entries edge.now) }
{
    for (v, chain) in kept.iter() {
        if is_on(edge, chain) {
            return Some(chain.id);
        }
    }
    None
}

// An equal chain. Refused for want of memory alone.
fn copied_chain(alloc: Global, chain: &PrimeRec) -> Result<PrimeRec, NoMemory>
    ensures { IfOk result (λ copy. copy ≡ chain.now) }
{
    Ok(PrimeRec {
        v: chain.v,
        id: chain.id,
        remote: chain.remote,
        list: chain.list.copy(alloc)?,
        double: chain.double,
    })
}

// Copies of those of these chains that are behind a number.
fn all_behind(
    alloc: Global,
    kept: &BTreeMap<u64, PrimeRec>,
    after: u64,
) -> Result<Listed<PrimeRec>, NoMemory>
    ensures { IfOk result (λ list. list ≡ map rec_of (filter (is_behind after) kept.now.entries)) }
{
    let mut made = Listed::new(alloc);
    for (v, chain) in kept.iter() {
        if after < *v {
            made.push(copied_chain(alloc, chain)?)?;
        }
    }
    Ok(made)
}
