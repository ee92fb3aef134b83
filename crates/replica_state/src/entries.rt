//! What the items of a log are to a part.
ghost use Rattle.std.specs.Prelude.{◌≡◌, ◌<◌, ℕ, IfOk};
ghost use Rattle.std.specs.List.{AllByRecursion};
ghost use Rattle.part_keys.specs.declared.proposal.Proposal.{Proposal as Value};
ghost use Rattle.replica_model.specs.Asks as asks;
ghost use Rattle.replica_model.specs.Bytes.{spelling_of};
ghost use Rattle.replica_model.specs.Spelling as values;
ghost use Rattle.replica_state.specs.State.{version, home_in};
ghost use Rattle.replica_state.specs.Written.{IsWritten};

use crate::whose::Whose;
use lists::NoMemory;
use part_keys::{EntryRefused, Proposal, is_payload, read_entry};
use raft_log::{Entry, Item};
use std::alloc::Global;

/// A replica's log has its entries in the second version.
pub(crate) const VERSION: u8 = 2;

/// What an item of the log is to the part. Refused for want of memory alone.
pub(crate) fn value_of(alloc: Global, item: &Item) -> Result<Proposal, NoMemory>
    ensures value { IfOk result (λ value. value ≡ values.value_of (spelling_of version) item.now) }
    ensures written { IfOk result IsWritten }
{
    match item {
        Item::NoOp => Ok(Proposal::Start),
        Item::Members(config) => Ok(Proposal::Members(config.copy())),
        Item::Payload(bytes) => match read_entry(alloc, bytes.as_slice(), VERSION) {
            Ok(entry) => Ok(Proposal::Made(entry)),
            Err(EntryRefused::BadPacket(_)) => Ok(Proposal::Blank),
            Err(EntryRefused::NoMemory) => Err(NoMemory),
        },
    }
}

// Whether a value may stand in the part's log.
fn is_entry(s: Whose, value: &Proposal) -> bool
    requires { 0 < s.parts }
    ensures { result ≡ asks.is_entry (home_in s) value.now }
{
    match value {
        Proposal::Start => true,
        Proposal::Members(_) => true,
        Proposal::Made(entry) => is_payload(s.ids, s.parts, s.part, entry),
        Proposal::Blank => false,
    }
}

// Whether the entry may stand in the part's log. Refused for want of memory alone.
fn may_stand(alloc: Global, s: Whose, entry: &Entry) -> Result<bool, NoMemory>
    requires { 0 < s.parts }
    ensures { IfOk result (λ may. may ≡ asks.is_entry (home_in s) (values.value_of (spelling_of version) entry.now.item)) }
{
    let value = value_of(alloc, &entry.item)?;
    Ok(is_entry(s, &value))
}

/// Whether each payload of these is an entry of the part. Refused for want of memory alone.
pub fn are_entries(alloc: Global, s: Whose, entries: &[Entry]) -> Result<bool, NoMemory>
    requires { 0 < s.parts }
    ensures { IfOk result (λ are. are ≡ asks.are_entries (home_in s) entries.now) }
{
    for entry in entries {
        if !may_stand(alloc, s, entry)? {
            return Ok(false);
        }
    }
    Ok(true)
}

/// What entries of the log are to the part, each with its term; what was read fits its spelling. Refused for want of memory
/// alone.
pub fn values(alloc: Global, entries: &[Entry]) -> Result<Vec<(u64, Proposal)>, NoMemory>
    ensures written { IfOk result (λ list. AllByRecursion (λ (value : ℕ × Value). IsWritten value.1) list.items) }
    ensures values { IfOk result (λ list. list.items ≡ values.values_of (spelling_of version) entries.now) }
{
    let mut list = Vec::new(alloc);
    for entry in entries {
        list.push((entry.term, value_of(alloc, &entry.item)?))?;
    }
    Ok(list)
}
