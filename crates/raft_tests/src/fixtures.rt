//! Configurations, logs and steps for the tables.
ghost use Rattle.std.specs.Prelude.{IfOk};
ghost use Rattle.raft_log.specs.Config.{IsConfig, IsItem, AreEntries};
ghost use Rattle.raft_core.specs.Ahead.{IsInput};

use lists::NoMemory;
use raft_core::{RaftCore, RaftEffects, RaftInput};
use raft_log::{Config, Entries, Entry, Item, Peers, RaftLog};
use std::alloc::Global;

fn with(peers: Peers, id: u32) -> Peers {
    if id == 0 {
        return peers;
    }
    if 8 <= peers.len() {
        return peers;
    }
    if peers.contains(id) {
        return peers;
    }
    peers.with(id)
}

/// The voters 1 to `last`, at most eight, and no learner.
pub fn voters_to(last: u32) -> Config
    ensures { IsConfig result }
{
    let mut voters = Peers::new();
    for id in 0..last {
        voters = with(voters, id + 1);
    }
    let _ids = voters.as_slice();
    Config {
        voters,
        learners: Peers::new(),
    }
}

// The first entry holds the configuration, the others nothing.
fn item_at(config: &Config, place: u64) -> Item
    requires { IsConfig config.now }
    ensures { IsItem result }
{
    if place == 0 {
        return Item::Members(config.copy());
    }
    Item::NoOp
}

/// A log of entries of these terms. The first holds the configuration.
pub fn log_of(alloc: Global, config: &Config, terms: &[u64]) -> Result<RaftLog, NoMemory>
    requires { IsConfig config.now }
{
    let mut log = RaftLog::new(alloc);
    for term in terms {
        log.reserve(1)?;
        let item = item_at(config, log.len());
        log.append(Entry { term: *term, item });
    }
    Ok(log)
}

/// Entries of these terms, which hold nothing.
pub fn entries_of(alloc: Global, terms: &[u64]) -> Result<Entries, NoMemory>
    ensures { IfOk result AreEntries }
{
    let mut entries = Entries::new(alloc);
    for term in terms {
        entries.push(Entry {
            term: *term,
            item: Item::NoOp,
        })?;
    }
    Ok(entries)
}

/// Whether entries have these terms.
pub fn have_terms(entries: &[Entry], terms: &[u64]) -> bool {
    if entries.len() != terms.len() {
        return false;
    }
    for (i, entry) in entries.iter().enumerate() {
        if entry.term != terms[i] {
            return false;
        }
    }
    true
}

/// Peer 1 of the voters 1 to `last`, with a log of these terms.
pub fn peer_of(
    alloc: Global,
    last: u32,
    term: u64,
    vote: u32,
    terms: &[u64],
) -> Result<RaftCore, NoMemory> {
    let log = log_of(alloc, &voters_to(last), terms)?;
    Ok(RaftCore::open(alloc, 1, term, vote, log))
}

/// One step; nothing is given where it is refused.
pub fn step(
    alloc: Global,
    core: &mut RaftCore,
    input: RaftInput,
) -> Result<Option<RaftEffects>, NoMemory>
    requires { IsInput input }
{
    let room = core.reserve(alloc, &input)?;
    Ok(core.step(room, input).ok())
}
