//! The log.
ghost use Rattle.std.specs.Prelude.{◌≡◌, [], ◌∷◌, ◌++◌, ◌≤◌, ◌<◌, ◌-◌, ◌^◌, ◌&&◌, nat_le, nat_lt, length, take, OnOk, IfOk, slice_get, vec_len, vec_capacity};
ghost use Rattle.std.specs.Bool.{OnTrue};
ghost use Rattle.std.specs.Option.{option_copied};
ghost use Rattle.raft_log.specs.Config.{IsConfig, IsItem, AreEntries};
ghost use Rattle.raft_log.specs.Log.{entry_at, term_at, last_of, matches, config_of, config_index};
ghost use Rattle.raft_log.specs.Places.{members_in, noted, forgotten};
ghost use Rattle.raft_log.specs.Rising.{risen, rising, IsOlder};

use crate::config::Config;
use crate::entry::{Entry, Item};
use crate::mark::Mark;
use crate::peers::Peers;
use crate::placed::Placed;
use lists::NoMemory;
use std::alloc::Global;
use std::marker::Model;

/// A log. Beside it stand the places of its configurations, and up to where its terms rise. Contracts
/// see its entries, and its spare: how many entries it can take without memory.
#[derive(Drop)]
pub struct RaftLog {
    entries: Vec<Entry>,
    places: Vec<u64>,
    rising: u64,
}

impl Model for RaftLog {
    ghost use Rattle.std.specs.Prelude.{◌≡◌, ◌-◌, min, List, ℕ, vec_len, vec_capacity};
    ghost use Rattle.std.specs.Coded.{coded_list, coded×, coded_ℕ};
    ghost use Rattle.raft_log.specs.declared.entry.Entry.{Entry};
    ghost use Rattle.raft_log.specs.contracts.entry.Entry as entry;
    ghost use Rattle.raft_log.specs.Config.{AreEntries};
    ghost use Rattle.raft_log.specs.Places.{config_places};
    ghost use Rattle.raft_log.specs.Rising.{rising as rising_in};

    ghost Value = { List Entry × ℕ };

    ghost coded = { coded× (coded_list entry.the_row.coded) coded_ℕ };

    ghost view = { λ it. (it.entries.items, min (vec_capacity it.entries - vec_len it.entries) (vec_capacity it.places - vec_len it.places)) };

    ghost invariant = { λ it. (it.places.items ≡ config_places it.entries.items) × AreEntries it.entries.items × (it.rising ≡ rising_in it.entries.items) };
}

// Notes the place of a configuration that is put into the log.
fn note(places: &mut Vec<u64>, item: &Item, place: u64)
    requires { vec_len places.old < vec_capacity places.old }
    ensures places { places.new.items ≡ places.old.items ++ noted item.now place }
    ensures room { vec_capacity places.old - vec_len places.old - 1 ≤ vec_capacity places.new - vec_len places.new }
{
    match item {
        Item::NoOp => {}
        Item::Payload(_) => {}
        Item::Members(_) => match places.push(place) {
            Ok(()) => {}
            Err(_) => unreachable!(),
        },
    }
}

// Forgets the place of a configuration that is taken off the log.
fn forget(places: &mut Vec<u64>, item: &Item)
    ensures places { places.new.items ≡ forgotten item.now places.old.items }
    ensures room { vec_capacity places.old - vec_len places.old ≤ vec_capacity places.new - vec_len places.new }
{
    match item {
        Item::NoOp => {}
        Item::Payload(_) => {}
        Item::Members(_) => {
            places.pop();
        }
    }
}

// Up to where the terms rise, with one entry more, of this term.
fn risen(rising: u64, last: Mark, term: u64) -> u64
    requires { rising < 2 ^ 64 - 1 }
    ensures { result ≡ risen rising last term }
{
    if rising == last.index && last.term <= term {
        rising + 1
    } else {
        rising
    }
}

impl RaftLog {
    /// The empty log. It takes no memory until it grows.
    pub fn new(alloc: Global) -> RaftLog
        ensures { result.0 ≡ [] }
    {
        RaftLog {
            entries: Vec::new(alloc),
            places: Vec::new(alloc),
            rising: 0,
        }
    }

    /// Makes room for this many entries. Refused for want of memory alone. The log stays, and has no less room than before.
    pub fn reserve(&mut self, entries: usize) -> Result<(), NoMemory>
        ensures room { OnOk result (entries ≤ self.new.1) }
        ensures spare { self.old.1 ≤ self.new.1 }
        ensures same { self.new.0 ≡ self.old.0 }
    {
        self.entries.reserve(entries)?;
        self.places.reserve(entries)?;
        Ok(())
    }

    /// Puts an entry at the end, without memory. There is room for it.
    pub fn append(&mut self, entry: Entry)
        requires room { 0 < self.old.1 }
        requires item { IsItem entry.item }
        ensures log { self.new.0 ≡ self.old.0 ++ entry ∷ [] }
        ensures room { self.old.1 - 1 ≤ self.new.1 }
    {
        let last = self.last();
        let rising = risen(self.rising, last, entry.term);
        note(&mut self.places, &entry.item, last.index + 1);
        match self.entries.push(entry) {
            Ok(()) => {}
            Err(_) => unreachable!(),
        }
        self.rising = rising;
    }

    /// Puts entries at the end, in their order, without memory. There is room for them.
    pub fn extend(&mut self, entries: Vec<Entry>)
        requires room { length entries.items ≤ self.old.1 }
        requires items { AreEntries entries.items }
        ensures { self.new.0 ≡ self.old.0 ++ entries.items }
    {
        for entry in entries {
            self.append(entry);
        }
    }

    // Takes the last entry off.
    fn pop(&mut self)
        ensures log { self.new.0 ≡ take (length self.old.0 - 1) self.old.0 }
        ensures room { self.old.1 ≤ self.new.1 }
    {
        if let Some(entry) = self.entries.pop() {
            forget(&mut self.places, &entry.item);
            self.rising = self.rising.min(self.entries.len() as u64);
        }
    }

    /// Takes off the entry at an index, and all behind it.
    pub fn cut_from(&mut self, index: u64)
        requires { 0 < index }
        ensures log { self.new.0 ≡ take (index - 1) self.old.0 }
        ensures room { self.old.1 ≤ self.new.1 }
    {
        for _ in index..self.len() + 1 {
            self.pop();
        }
    }

    /// The number of entries.
    pub fn len(&self) -> u64
        ensures count { result ≡ length self.now.0 }
        ensures fits { result < 2 ^ 63 }
    {
        self.entries.len() as u64
    }

    /// The entries, in order.
    pub fn entries(&self) -> &[Entry]
        ensures entries { result.now ≡ self.now.0 }
        ensures items { AreEntries self.now.0 }
    {
        self.entries.as_slice()
    }

    /// The entry at an index, none before the first and behind the last.
    pub fn entry(&self, index: u64) -> Option<&Entry>
        ensures { option_copied result ≡ entry_at self.now.0 index }
    {
        if index == 0 {
            return None;
        }
        self.entries.as_slice().get((index - 1) as usize)
    }

    /// The term of the entry at an index, 0 where there is none.
    pub fn term_at(&self, index: u64) -> u64
        ensures { result ≡ term_at self.now.0 index }
    {
        match self.entry(index) {
            Some(entry) => entry.term,
            None => 0,
        }
    }

    /// Whether the entry at the index has that term; before the first entry the term is 0.
    pub fn matches(&self, index: u64, term: u64) -> bool
        ensures { result ≡ matches self.now.0 index term }
    {
        if index == 0 {
            return term == 0;
        }
        match self.entry(index) {
            Some(entry) => entry.term == term,
            None => false,
        }
    }

    /// Whether terms rise up to an index, and the one there is below this one. Then each entry up to it has a lower term.
    pub fn is_older(&self, index: u64, term: u64) -> bool
        ensures told { result ≡ (nat_le index (rising self.now.0) && nat_lt (term_at self.now.0 index) term) }
        ensures older { OnTrue result (IsOlder term (take index self.now.0)) }
    {
        index <= self.rising && self.term_at(index) < term
    }

    /// The last place of the log, zeros where it is empty.
    pub fn last(&self) -> Mark
        ensures { result ≡ last_of self.now.0 }
    {
        let index = self.len();
        Mark {
            index,
            term: self.term_at(index),
        }
    }

    // The index of the last configuration among the entries up to an index, 0 where there is none.
    fn config_index(&self, index: u64) -> u64
        ensures { result ≡ config_index (take index self.now.0) }
    {
        let places = self.places.as_slice();
        let mut left = places.len();
        while left > 0 {
            let place = places[left - 1];
            if place <= index {
                return place;
            }
            left -= 1;
        }
        0
    }

    // The configuration in an entry, nobody where it holds none.
    fn members_at(&self, index: u64) -> Config
        ensures { result ≡ members_in (entry_at self.now.0 index) }
    {
        if let Some(entry) = self.entry(index) {
            if let Item::Members(config) = &entry.item {
                return config.copy();
            }
        }
        Config {
            voters: Peers::new(),
            learners: Peers::new(),
        }
    }

    /// The last configuration among the entries up to an index, with its own.
    pub fn config_up_to(&self, index: u64) -> Placed
        ensures index { result.index ≡ config_index (take index self.now.0) }
        ensures config { result.config ≡ config_of (take index self.now.0) }
        ensures members { IsConfig result.config }
    {
        let _ = &self.entries;
        let place = self.config_index(index);
        Placed {
            index: place,
            config: self.members_at(place),
        }
    }

    /// The last configuration in the log, decided or not, with its index.
    pub fn config(&self) -> Placed
        ensures index { result.index ≡ config_index self.now.0 }
        ensures config { result.config ≡ config_of self.now.0 }
        ensures members { IsConfig result.config }
    {
        self.config_up_to(self.len())
    }
}
