//! The chains that a leader knows.
ghost use Rattle.std.specs.Prelude.{◌≡◌, IfOk, IfErr};
ghost use Rattle.std.specs.Option.{option_map};
ghost use Rattle.chain_leader.specs.Rules.{first_to_double, may_double, next_try};
ghost use Rattle.chain_leader.specs.Rows.{AreRising, IsAt, IsGapFor};

use graph_model::CallId;
use lists::NoMemory;
use part_keys::{ChainState, Mode};
use std::alloc::Global;
use std::marker::Model;

/// Which peer of a part a chain's next letter goes to: the hint, or where it is 0 the one of that try.
#[derive(Clone, Copy)]
pub struct Route {
    pub tries: u32,
    pub hint: u32,
}

/// The chains that a leader knows, by number, and how many more can be added without taking memory.
#[derive(Drop)]
pub struct ChainTable {
    rows: Vec<(u64, ChainState)>,
}

impl Model for ChainTable {
    ghost use Rattle.std.specs.Prelude.{ℕ, vec_len, vec_capacity, ◌-◌};
    ghost use Rattle.std.specs.FinMap as map;
    ghost use Rattle.std.specs.Coded.{coded×, coded_ℕ};
    ghost use Rattle.std.specs.Ordering.{nat_cmp};
    ghost use Rattle.part_keys.specs.declared.chain.ChainState.{ChainState};
    ghost use Rattle.part_keys.specs.contracts.chain.ChainState as value;
    ghost use Rattle.chain_leader.specs.Rows.{AreRising};

    ghost Value = { map.FinMap nat_cmp ChainState × ℕ };

    ghost coded = { coded× (map.code coded_ℕ value.the_row.coded) coded_ℕ };

    ghost view = { λ a. (map.from_entries a.rows.items, vec_capacity a.rows - vec_len a.rows) };

    ghost invariant = { λ a. AreRising a.rows.items };
}

impl ChainTable {
    ghost use Rattle.std.specs.Prelude.{◌≡◌, ◌≤◌, ◌<◌, ◌-◌, OnOk, OnErr};
    ghost use Rattle.std.specs.Option.{option_copied, option_map};
    ghost use Rattle.std.specs.FinMap as map;
    ghost use Rattle.maps.specs.Maps.{altered};
    ghost use Rattle.chain_leader.specs.Rules.{first_to_double};
    ghost use Rattle.chain_leader.specs.Table.{with_hint, with_asked, with_double, with_try, route_of};
    ghost use Rattle.chain_leader.specs.Resuming.{taken_up};

    /// No chain.
    pub fn new(alloc: Global) -> Self
        ensures { result.0 ≡ map.empty }
    {
        ChainTable {
            rows: Vec::new(alloc),
        }
    }

    /// Room for so many more chains. Refused for want of memory alone.
    pub fn reserve(&mut self, more: usize) -> Result<(), NoMemory>
        ensures room { OnOk result (more ≤ self.new.1) }
        ensures kept { self.old.1 ≤ self.new.1 }
        ensures same { self.new.0 ≡ self.old.0 }
    {
        self.rows.reserve(more)?;
        Ok(())
    }

    /// The chain of that number.
    pub fn get(&self, v: u64) -> Option<&ChainState>
        ensures { option_copied result ≡ map.get self.now.0 v }
    {
        match place(self.rows.as_slice(), v) {
            Ok(at) => Some(&self.rows[at].1),
            Err(_) => None,
        }
    }

    /// The first chain, by number, of that call that may be doubled.
    pub fn first_to_double(&self, id: CallId) -> Option<u64>
        ensures { result ≡ option_map (λ c. c.0) (first_to_double id (map.entries self.now.0)) }
    {
        first_to_double(self.rows.as_slice(), id)
    }

    /// Adds a chain.
    pub fn add(&mut self, v: u64, chain: ChainState)
        requires { 0 < self.old.1 }
        ensures table { self.new.0 ≡ map.insert self.old.0 v chain }
        ensures room { self.old.1 - 1 ≤ self.new.1 }
    {
        match place(self.rows.as_slice(), v) {
            Ok(at) => {
                self.rows[at] = (v, chain);
            }
            Err(at) => match self.rows.insert(at, (v, chain)) {
                Ok(()) => {}
                Err(_) => unreachable!(),
            },
        }
    }

    /// Takes up a chain: it is added as it is given, or the one that is there has one try more.
    pub fn take_up(&mut self, row: (u64, ChainState))
        requires { 0 < self.old.1 }
        ensures table { self.new.0 ≡ taken_up self.old.0 row }
        ensures room { self.old.1 - 1 ≤ self.new.1 }
    {
        let (v, chain) = row;
        let Some(_) = self.get(v) else {
            self.add(v, chain);
            return;
        };
        self.retry(v);
    }

    /// Forgets a chain.
    pub fn forget(&mut self, v: u64)
        ensures table { self.new.0 ≡ map.remove self.old.0 v }
        ensures room { self.old.1 ≤ self.new.1 }
    {
        let Ok(at) = place(self.rows.as_slice(), v) else {
            return;
        };
        self.rows.remove(at);
    }

    /// Forgets all chains.
    pub fn clear(&mut self)
        ensures table { self.new.0 ≡ map.empty }
        ensures room { self.old.1 ≤ self.new.1 }
    {
        self.rows.clear();
    }

    /// Sets the peer to send to next.
    pub fn told(&mut self, v: u64, hint: u32)
        ensures table { self.new.0 ≡ altered self.old.0 v (with_hint hint) }
        ensures room { self.new.1 ≡ self.old.1 }
    {
        let Ok(at) = place(self.rows.as_slice(), v) else {
            return;
        };
        self.rows[at].1.hint = hint;
    }

    /// Where the next letter of a chain goes. The hint is used up.
    pub fn route(&mut self, v: u64) -> Option<Route>
        ensures route { result ≡ option_map route_of (map.get self.old.0 v) }
        ensures table { self.new.0 ≡ altered self.old.0 v (with_hint 0) }
        ensures room { self.new.1 ≡ self.old.1 }
    {
        let Some(chain) = self.get(v) else {
            return None;
        };
        let route = Route {
            tries: chain.tries,
            hint: chain.hint,
        };
        self.told(v, 0);
        Some(route)
    }

    /// The entry that ends a chain is asked for.
    pub fn ask(&mut self, v: u64)
        ensures table { self.new.0 ≡ altered self.old.0 v with_asked }
        ensures room { self.new.1 ≡ self.old.1 }
    {
        let Ok(at) = place(self.rows.as_slice(), v) else {
            return;
        };
        self.rows[at].1.asked = true;
    }

    /// A chain is doubled.
    pub fn double(&mut self, v: u64)
        ensures table { self.new.0 ≡ altered self.old.0 v with_double }
        ensures room { self.new.1 ≡ self.old.1 }
    {
        let Ok(at) = place(self.rows.as_slice(), v) else {
            return;
        };
        self.rows[at].1.mode = Mode::Doubled;
    }

    /// A chain is taken up once more.
    pub fn retry(&mut self, v: u64)
        ensures table { self.new.0 ≡ altered self.old.0 v with_try }
        ensures room { self.new.1 ≡ self.old.1 }
    {
        let Ok(at) = place(self.rows.as_slice(), v) else {
            return;
        };
        let row = &mut self.rows[at];
        row.1.tries = next_try(row.1.tries);
    }
}

/// Where the row of that number is, or where it would go.
fn place(rows: &[(u64, ChainState)], v: u64) -> Result<usize, usize>
    requires { AreRising rows.now }
    ensures found { IfOk result (IsAt rows.now v) }
    ensures absent { IfErr result (IsGapFor rows.now v) }
{
    rows.binary_search_by_key(&v, |row| row.0)
}

pub(crate) fn next_try(tries: u32) -> u32
    ensures { result ≡ next_try tries }
{
    if tries < u32::MAX { tries + 1 } else { tries }
}

fn first_to_double(rows: &[(u64, ChainState)], id: CallId) -> Option<u64>
    ensures { result ≡ option_map (λ c. c.0) (first_to_double id rows.now) }
{
    for row in rows {
        if may_double(id, &row.1) {
            return Some(row.0);
        }
    }
    None
}

/// Whether the chain is that call's, in mode Put, with nothing asked.
fn may_double(id: CallId, chain: &ChainState) -> bool
    ensures { result ≡ may_double id chain.now }
{
    if !chain.id.cmp(&id).is_eq() {
        return false;
    }
    match chain.mode {
        Mode::Put => !chain.asked,
        Mode::Doubled => false,
        Mode::Fence => false,
    }
}
