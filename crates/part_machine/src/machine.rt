//! The machine of one part.

use crate::chains::{Places, drop_places, take_turn};
use crate::plan::Plan;
use crate::playing::{play_all, take_back};
use crate::primes::{Primes, first_behind};
use graph_model::{Query, View};
use kv_part::KeyStore;
use lists::{Listed, NoMemory};
use part_keys::{PartEntry, VidKind};
use part_rules::Applied;
use part_store::Setting;
use part_views::view;
use std::alloc::Global;
use std::collections::{BTreeMap, VecDeque};
use std::mem::replace;

/// Entries, each at its index.
pub type PlacedEntries = Listed<(u64, PartEntry)>;

/// The machine of one part, over a store of keys. It shows a state of the part, and some placed entries are reserved:
/// for each of these there is a plan of what it does.
#[derive(Drop)]
pub struct Machine<S> {
    pub(crate) setting: Setting,
    pub(crate) next: u64,
    pub(crate) store: S,
    pub(crate) chains: Places,
    pub(crate) plans: VecDeque<Plan>,
    /// The numbers for which places were made among the chains since the last reserve.
    pub(crate) held: Vec<u64>,
}

impl<S: KeyStore> Machine<S> {
    ghost use Rattle.std.specs.Prelude.{◌≡◌, ◌+◌, ℕ, List, [], ◌∷◌, IfOk, OnOk, OnErr};
    ghost use Rattle.std.specs.FinMap as map;
    ghost use Rattle.part_keys.specs.declared.entry.PartEntry.{PartEntry as Entry};
    ghost use Rattle.part_rules.specs.Part.{Part, blank};
    ghost use Rattle.part_rules.specs.Machine.{applied};
    ghost use Rattle.part_rules.specs.View.{view, primes};
    ghost use Rattle.part_views.specs.Views.{IsAsked};
    ghost use Rattle.part_store.specs.Settings.{IsSetting};
    ghost use Rattle.part_machine.specs.Machine.{IsMachine};
    ghost use Rattle.part_machine.specs.Playing.{AreTaken};

    /// The machine of a part of so many parts, in a space of this kind of ids, over an empty store. Nothing was applied
    /// yet, and nothing is reserved.
    pub fn new(alloc: Global, part: u32, parts: u32, ids: VidKind, store: S) -> Machine<S>
        requires setting { IsSetting (record { ids = ids; parts = parts; part = part }) }
        requires empty { S.meaning store ≡ map.empty }
        ensures shows { IsMachine S.meaning S.has_place blank [] result }
        ensures setting { result.setting ≡ record { ids = ids; parts = parts; part = part } }
        ensures next { result.next ≡ 1 }
    {
        Machine {
            setting: Setting { ids, parts, part },
            next: 1,
            store,
            chains: BTreeMap::new(alloc),
            plans: VecDeque::new(alloc),
            held: Vec::new(alloc),
        }
    }

    /// Makes a plan for each of these placed entries, in place of those that are reserved. Refused for want of memory alone,
    /// and then none is reserved; the state stays, whatever is answered.
    pub fn reserve(&mut self, alloc: Global, list: &PlacedEntries) -> Result<(), NoMemory>
        requires shows { (p : Part) × (entries : List (ℕ × Entry)) × IsMachine S.meaning S.has_place p entries self.old }
        requires taken { AreTaken self.old.setting self.old.next list.now }
        ensures ok { OnOk result ((p : Part) (entries : List (ℕ × Entry)) → IsMachine S.meaning S.has_place p entries self.old → IsMachine S.meaning S.has_place p list.now self.new) }
        ensures err { OnErr result ((p : Part) (entries : List (ℕ × Entry)) → IsMachine S.meaning S.has_place p entries self.old → IsMachine S.meaning S.has_place p [] self.new) }
        ensures setting { self.new.setting ≡ self.old.setting }
        ensures next { self.new.next ≡ self.old.next }
    {
        self.forget(alloc);
        self.plan_all(alloc, list)
    }

    // Nothing is reserved any more, and no place is kept for it. The state stays.
    fn forget(&mut self, alloc: Global)
        ensures shows { (p : Part) (entries : List (ℕ × Entry)) → IsMachine S.meaning S.has_place p entries self.old → IsMachine S.meaning S.has_place p [] self.new }
        ensures none { self.new.plans.items ≡ [] }
        ensures setting { self.new.setting ≡ self.old.setting }
        ensures next { self.new.next ≡ self.old.next }
    {
        self.plans = VecDeque::new(alloc);
        let held = replace(&mut self.held, Vec::new(alloc));
        drop_places(&mut self.chains, held);
    }

    // Makes a plan for each of these placed entries, where nothing is reserved. Refused for want of memory alone, and then none
    // is reserved; the state stays, whatever is answered.
    fn plan_all(&mut self, alloc: Global, list: &PlacedEntries) -> Result<(), NoMemory>
        requires shows { (p : Part) × IsMachine S.meaning S.has_place p [] self.old }
        requires none { self.old.plans.items ≡ [] }
        requires taken { AreTaken self.old.setting self.old.next list.now }
        ensures ok { OnOk result ((p : Part) → IsMachine S.meaning S.has_place p [] self.old → IsMachine S.meaning S.has_place p list.now self.new) }
        ensures err { OnErr result ((p : Part) → IsMachine S.meaning S.has_place p [] self.old → IsMachine S.meaning S.has_place p [] self.new) }
        ensures setting { self.new.setting ≡ self.old.setting }
        ensures next { self.new.next ≡ self.old.next }
    {
        let first = self.next;
        let mut backs = Vec::new(alloc);
        let told = play_all(alloc, self, &mut backs, list.as_slice());
        take_back(self, backs);
        self.next = first;
        match told {
            Ok(()) => Ok(()),
            Err(refused) => {
                self.plans = VecDeque::new(alloc);
                Err(refused)
            }
        }
    }

    /// Applies the first entry that is reserved, and gives its answer. It takes no memory.
    pub fn apply(&mut self, index: u64, _entry: &PartEntry) -> Applied
        requires { (p : Part) × (rest : List (ℕ × Entry)) × IsMachine S.meaning S.has_place p ((index, _entry.now) ∷ rest) self.old }
        ensures shows { (p : Part) (rest : List (ℕ × Entry)) → IsMachine S.meaning S.has_place p ((index, _entry.now) ∷ rest) self.old
            → IsMachine S.meaning S.has_place (applied self.old.setting.parts index _entry.now p).0 rest self.new
            × (result ≡ (applied self.old.setting.parts index _entry.now p).1) }
        ensures setting { self.new.setting ≡ self.old.setting }
        ensures next { self.new.next ≡ index + 1 }
    {
        let Some(plan) = self.plans.pop_front() else {
            unreachable!();
        };
        let Plan {
            batch,
            turn,
            answer,
        } = plan;
        self.store.write(batch);
        take_turn(&mut self.chains, turn);
        self.next = index + 1;
        answer
    }

    /// What a query finds in the part. Refused for want of memory alone.
    pub fn view(&self, alloc: Global, query: &Query) -> Result<View, NoMemory>
        requires setting { IsSetting self.now.setting }
        requires asked { IsAsked self.now.setting query.now }
        ensures { (p : Part) (entries : List (ℕ × Entry)) → IsMachine S.meaning S.has_place p entries self.now → IfOk result (λ found. found ≡ view query.now p) }
    {
        view(alloc, self.setting, &self.store, query)
    }

    /// The chains that stand behind a number, by rising number, as many as are taken up at once. Refused for want of memory
    /// alone.
    pub fn primes(&self, alloc: Global, after: u64) -> Result<Primes, NoMemory>
        ensures { (p : Part) (entries : List (ℕ × Entry)) → IsMachine S.meaning S.has_place p entries self.now → IfOk result (λ list. list ≡ primes after p) }
    {
        first_behind(alloc, &self.chains, after)
    }
}
