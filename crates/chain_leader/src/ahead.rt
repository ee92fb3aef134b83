//! What a leader makes of an item, before it applies it.
ghost use Rattle.std.specs.Prelude.{◌≡◌, ◌==◌, ◌++◌, ℕ, None, IfOk};
ghost use Rattle.std.specs.Option.{option_copied, option_to_list};
ghost use Rattle.part_rules.specs.Part.{Part};
ghost use Rattle.chain_leader.specs.Applying.{IsSaid, back_at, back_by, told_by, by_ready, beginning_by, begun_with, row_in, row_begun};
ghost use Rattle.chain_leader.specs.Leading.{told, on_item, started};
ghost use Rattle.chain_leader.specs.Calls.{answer_of};
ghost use Rattle.chain_leader.specs.Rules.{Table};

use crate::answers::{back_where, told};
use crate::item_letters::ItemLetters;
use crate::letter::Letter;
use crate::new_chain::{NewChain, beginning};
use lists::NoMemory;
use part_keys::{ChainState, PartEntry, PrimeRec, Proposal};
use part_rules::Applied;
use std::alloc::Global;

/// What a leader makes of an item, before it applies it: what it sends, the row of the chain that begins, and whether the leader
/// is ready behind it.
#[derive(Drop)]
pub struct ItemAhead {
    pub sent: ItemLetters,
    pub begins: Option<(u64, ChainState)>,
    pub ready: bool,
}

// The chain that begins, at a leader that is ready or not: its row and its letter.
fn parted(ready: bool, made: Option<NewChain>) -> (Option<(u64, ChainState)>, Option<Letter>)
    ensures row { result.0 ≡ row_in ready made }
    ensures letter { (t : Table) → option_to_list result.1 ≡ (begun_with ready t made).letters }
{
    let Some(NewChain { v, chain, letter }) = made else {
        return (None, None);
    };
    if !ready {
        return (None, None);
    }
    (Some((v, chain)), Some(letter))
}

// An entry, by its answer. Refused for want of memory alone.
fn entry_ahead(
    alloc: Global,
    ready: bool,
    term: u64,
    own: bool,
    entry: &PartEntry,
    said: &Applied,
    begun: Option<&PrimeRec>,
) -> Result<ItemAhead, NoMemory>
    ensures told { IfOk result (λ ahead. option_to_list ahead.sent.told ≡ told (answer_of entry.now said.now)) }
    ensures back { IfOk result (λ ahead. option_to_list ahead.sent.back ≡ back_at own entry.now said.now) }
    ensures rules { (t : Table) → IfOk result (λ ahead. option_to_list ahead.sent.rule ≡ (begun_with ready t (beginning_by term said.now (option_copied begun.entry))).letters) }
    ensures begins { IfOk result (λ ahead. ahead.begins ≡ row_in ready (beginning_by term said.now (option_copied begun.entry))) }
    ensures ready { IfOk result (λ ahead. ahead.ready ≡ ready) }
{
    let made = beginning(alloc, term, said, begun)?;
    let (begins, rule) = parted(ready, made);
    let sent = ItemLetters {
        told: told(entry, said),
        back: back_where(own, entry, said),
        rule,
    };
    Ok(ItemAhead {
        sent,
        begins,
        ready,
    })
}

// A no-op: where it is that of the leader's own term, the leader is ready, and sends itself a Resume.
fn started_ahead(ready: bool, own: bool) -> ItemAhead
    ensures told { result.sent.told ≡ None }
    ensures back { result.sent.back ≡ None }
    ensures rules { option_to_list result.sent.rule ≡ (started (by_ready ready) own).rules }
    ensures begins { result.begins ≡ None }
    ensures ready { result.ready ≡ (started (by_ready ready) own).leading.ready }
{
    if !own {
        return nothing_ahead(ready);
    }
    ItemAhead {
        sent: ItemLetters::of_rule(Some(Letter::Again(None))),
        begins: None,
        ready: true,
    }
}

// Nothing.
fn nothing_ahead(ready: bool) -> ItemAhead
    ensures told { result.sent.told ≡ None }
    ensures back { result.sent.back ≡ None }
    ensures rule { result.sent.rule ≡ None }
    ensures begins { result.begins ≡ None }
    ensures ready { result.ready ≡ ready }
{
    ItemAhead {
        sent: ItemLetters::nothing(),
        begins: None,
        ready,
    }
}

/// What a leader of that term makes of an item of the term `of`, before it applies it: `ready` tells whether it is ready before
/// the item, `said` is the item's answer, and `begun` the record of the chain that begins with it. Refused for want of memory
/// alone.
pub fn item_ahead(
    alloc: Global,
    ready: bool,
    term: u64,
    of: u64,
    item: &Proposal,
    said: &Applied,
    begun: Option<&PrimeRec>,
) -> Result<ItemAhead, NoMemory>
    ensures answers { (parts index : ℕ) (machine : Part) → IsSaid parts index item.now machine said.now (option_copied begun.entry) → IfOk result (λ ahead. option_to_list ahead.sent.told ++ option_to_list ahead.sent.back ≡ (on_item parts term machine (by_ready ready) index (of, item.now)).answers) }
    ensures told { IfOk result (λ ahead. option_to_list ahead.sent.told ≡ told_by item.now said.now) }
    ensures back { IfOk result (λ ahead. option_to_list ahead.sent.back ≡ back_by (of == term) item.now said.now) }
    ensures rules { (parts index : ℕ) (machine : Part) → IsSaid parts index item.now machine said.now (option_copied begun.entry) → IfOk result (λ ahead. option_to_list ahead.sent.rule ≡ (on_item parts term machine (by_ready ready) index (of, item.now)).rules) }
    ensures ready { (parts index : ℕ) (machine : Part) → IsSaid parts index item.now machine said.now (option_copied begun.entry) → IfOk result (λ ahead. ahead.ready ≡ (on_item parts term machine (by_ready ready) index (of, item.now)).leading.ready) }
    ensures begins { IfOk result (λ ahead. ahead.begins ≡ row_begun ready term item.now said.now (option_copied begun.entry)) }
{
    match item {
        Proposal::Start => Ok(started_ahead(ready, of == term)),
        Proposal::Members(_) => Ok(nothing_ahead(ready)),
        Proposal::Made(entry) => {
            let ahead = entry_ahead(alloc, ready, term, of == term, entry, said, begun)?;
            Ok(ahead)
        }
        Proposal::Blank => Ok(nothing_ahead(ready)),
    }
}
