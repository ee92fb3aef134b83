//! The log behind a step that is made ahead.
ghost use Rattle.std.specs.Prelude.{◌≡◌, ◌++◌, ◌≤◌, ◌<◌, ◌-◌, ◌^◌, List, length, take, drop, IfOk, if◌then◌else◌};
ghost use Rattle.raft_log.specs.declared.entry.Entry.{Entry as Row};
ghost use Rattle.std.specs.Bool.{OnTrue};
ghost use Rattle.std.specs.Option.{option_copied};
ghost use Rattle.raft_log.specs.Rising.{IsOlder};
ghost use Rattle.raft_log.specs.Log.{entry_at, term_at, config_behind, config_from, config_index, config_of, is_members};

use lists::{Copied, Listed, NoMemory};
use raft_log::{Config, Entries, Entry, Item, Peers, RaftLog};
use std::alloc::Global;
use std::marker::Model;

/// The log behind a step that is made ahead, before it is written: the first entries of a log, and those that come
/// behind them. Contracts see the entries.
#[derive(Drop)]
pub struct NextLog<'a> {
    log: &'a RaftLog,
    keep: u64,
    entries: &'a [Entry],
}

impl<'a> Model for NextLog<'a> {
    ghost use Rattle.std.specs.Prelude.{◌≤◌, ◌++◌, List, length, take};
    ghost use Rattle.std.specs.Coded.{coded_list};
    ghost use Rattle.raft_log.specs.declared.entry.Entry.{Entry};
    ghost use Rattle.raft_log.specs.contracts.entry.Entry as entry;

    ghost Value = { List Entry };

    ghost coded = { coded_list entry.the_row.coded };

    ghost view = { λ it. take it.keep it.log.now.0 ++ it.entries.now };

    ghost invariant = { λ it. it.keep ≤ length it.log.now.0 };
}

// The configuration behind an item, from the one before it.
fn config_behind(config: Config, item: &Item) -> Config
    ensures { result ≡ config_behind config item.now }
{
    match item {
        Item::NoOp => config,
        Item::Members(other) => other.copy(),
        Item::Payload(_) => config,
    }
}

/// The last configuration, where entries come behind those that have one.
pub fn config_from(mut config: Config, entries: &[Entry]) -> Config
    ensures { result ≡ config_from config entries.now }
{
    for entry in entries {
        config = config_behind(config, &entry.item);
    }
    config
}

// The index of the last configuration, where an item comes at this place behind those that have one at that index.
fn index_behind(index: u64, place: u64, item: &Item) -> u64
    ensures { result ≡ (if is_members item.now then place else index) }
{
    match item {
        Item::NoOp => index,
        Item::Members(_) => place,
        Item::Payload(_) => index,
    }
}

// The index of the last configuration, where entries come behind so many that have one at that index.
fn index_from(mut index: u64, keep: u64, entries: &[Entry]) -> u64
    requires { keep < 2 ^ 63 }
    ensures { (log : List Row) → keep ≡ length log → index ≡ config_index log → result ≡ config_index (log ++ entries.now) }
{
    for (k, entry) in entries.iter().enumerate() {
        index = index_behind(index, keep + k as u64 + 1, &entry.item);
    }
    index
}

impl<'a> NextLog<'a> {
    /// So many entries of a log, and these behind them.
    pub fn new(log: &'a RaftLog, keep: u64, entries: &'a [Entry]) -> NextLog<'a>
        requires { keep ≤ length log.now.0 }
        ensures { result ≡ take keep log.now.0 ++ entries.now }
    {
        NextLog { log, keep, entries }
    }

    /// The number of entries.
    pub fn len(&self) -> u64
        ensures count { result ≡ length self.now }
        ensures fits { result < 2 ^ 64 - 1 }
    {
        let _whole = self.log.len();
        self.keep + self.entries.len() as u64
    }

    /// The entry at an index, none before the first and behind the last.
    pub fn entry(&self, index: u64) -> Option<&Entry>
        ensures { option_copied result ≡ entry_at self.now index }
    {
        if index <= self.keep {
            return self.log.entry(index);
        }
        self.entries.get((index - self.keep - 1) as usize)
    }

    /// The term of the entry at an index, 0 where there is none.
    pub fn term_at(&self, index: u64) -> u64
        ensures { result ≡ term_at self.now index }
    {
        match self.entry(index) {
            Some(entry) => entry.term,
            None => 0,
        }
    }

    /// Whether each entry up to an index is known to have a lower term.
    pub fn is_older(&self, index: u64, term: u64) -> bool
        ensures { OnTrue result (IsOlder term (take index self.now)) }
    {
        index <= self.keep && self.log.is_older(index, term)
    }

    /// The entries behind an index, at most so many.
    pub fn copied(&self, alloc: Global, behind: u64, most: u64) -> Result<Entries, NoMemory>
        ensures { IfOk result (λ entries. entries ≡ take most (drop behind self.now)) }
    {
        let mut entries = Listed::new(alloc);
        let count = self.len().saturating_sub(behind).min(most);
        for k in 0..count {
            let Some(entry) = self.entry(behind + k + 1) else {
                return Ok(entries);
            };
            entries.push(entry.copied(alloc)?)?;
        }
        Ok(entries)
    }

    /// The index of the last configuration, 0 where there is none.
    pub fn config_index(&self) -> u64
        ensures { result ≡ config_index self.now }
    {
        let _whole = self.log.len();
        index_from(
            self.log.config_up_to(self.keep).index,
            self.keep,
            self.entries,
        )
    }

    /// The voters of the last configuration.
    pub fn voters(&self) -> Peers
        ensures { result ≡ (config_of self.now).voters }
    {
        config_from(self.log.config_up_to(self.keep).config, self.entries).voters
    }
}
