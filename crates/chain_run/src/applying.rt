//! A leader applies the next decided item.
ghost use Rattle.std.specs.Prelude.{◌≡◌, ◌+◌, ◌<◌, ◌++◌, ◌==◌, if◌then◌else◌, length, None, OnOk, IfOk};
ghost use Rattle.std.specs.Option.{option_copied, option_to_list};
ghost use Rattle.chain_leader.specs.Applying.{chain_at};
ghost use Rattle.chain_leader.specs.Leader.{leads, BeganBehind, StandsBehind};
ghost use Rattle.part_fold.specs.State.{part_of};
ghost use Rattle.chain_leader.specs.Leading.{on_item};
ghost use Rattle.part_rules.specs.Folded.{folded};
ghost use Rattle.raft_log.specs.Decided.{count_term};
ghost use Rattle.chain_run.specs.Shows.{leader_of};

use crate::chains::{Chains, is_part};
use crate::copies::copied_end;
use crate::deciding::count_term;
use crate::leaders::{Seat, Seated};
use crate::leading::front;
use crate::listing::{item_at, list_of};
use crate::posts::push_any;
use chain_leader::{ItemLetters, chain_at};
use chain_world::ChainEnd;
use lists::NoMemory;
use part_fold::{PartState, folded};
use part_keys::{PrimeRec, Proposal};
use part_rules::Applied;
use std::alloc::Global;

// The record of the chain that an item with that answer began, as it stands in the part.
fn began_in<'a>(machine: &'a PartState, said: &Applied) -> Option<&'a PrimeRec>
    ensures { BeganBehind (part_of machine.now) said.now (option_copied result) }
{
    match said {
        Applied::Begun(v) => machine.chains().get(*v),
        _ => None,
    }
}

// Whether the chain that an item may end stands in the part.
fn stands_in(machine: &PartState, item: &Proposal) -> bool
    ensures { StandsBehind (part_of machine.now) (chain_at item.now) result }
{
    match chain_at(item) {
        Some(v) => machine.chains().has(v),
        None => false,
    }
}

// What a leader of that term makes of the next item, of the term `of`, where the part is the one behind these items.
fn applies(
    alloc: Global,
    parts: u32,
    term: u64,
    items: &[(u64, Proposal)],
    leader: &mut Seated,
    of: u64,
    item: &Proposal,
) -> Result<ItemLetters, NoMemory>
    requires { 0 < parts }
    ensures leader { OnOk result (leader_of leader.new ≡ record (leader_of leader.old) { lead = (on_item parts term (folded parts items.now) (leads leader.old.lead) (length items.now + 1) (of, item.now)).leading; applied = length items.now + 1 }) }
    ensures answers { IfOk result (λ sent. option_to_list sent.told ++ option_to_list sent.back ≡ (on_item parts term (folded parts items.now) (leads leader.old.lead) (length items.now + 1) (of, item.now)).answers) }
    ensures rules { IfOk result (λ sent. option_to_list sent.rule ≡ (on_item parts term (folded parts items.now) (leads leader.old.lead) (length items.now + 1) (of, item.now)).rules) }
{
    let index = items.len() as u64 + 1;
    let mut machine = folded(alloc, parts, items)?;
    let said = machine.apply(alloc, parts, index, item)?;
    let begun = began_in(&machine, &said);
    let stands = stands_in(&machine, item);
    let sent = leader
        .lead
        .on_item(alloc, term, of, item, &said, begun, stands)?;
    leader.applied = index;
    Ok(sent)
}

// The sender of a Remote or Fence that the leader proposed itself, where the next item is of the term `of`.
fn own_sender(leader: &Seated, items: &[(u64, Proposal)], term: u64, of: u64) -> Option<ChainEnd>
    ensures { result ≡ (if of == term then (leader_of leader.now).senders (count_term items.now term) else None) }
{
    if of != term {
        return None;
    }
    match leader.senders.get(count_term(items, term)) {
        Some(sender) => Some(copied_end(sender)),
        None => None,
    }
}

impl Chains {
    ghost use Rattle.std.specs.Prelude.{◌≡◌, ◌<◌, OnOk};
    ghost use Rattle.part_keys.specs.declared.vid_kind.VidKind.{VidKind};
    ghost use Rattle.chain_world.specs.World.{after};
    ghost use Rattle.chain_world.specs.declared.event.ChainEvent.TheVariants as happens;
    ghost use Rattle.chain_run.specs.Shows.{world_of};

    // A leader applies the next decided item, where its term isn't above the leader's.
    pub(crate) fn apply(
        &mut self,
        alloc: Global,
        parts: u32,
        part: u32,
        term: u64,
    ) -> Result<(), NoMemory>
        requires { 0 < parts }
        ensures { (ids : VidKind) → OnOk result (world_of self.new ≡ after ids parts (world_of self.old) (happens.Apply part term)) }
    {
        let seat = Seat { part, term };
        if !is_part(parts, part) {
            return Ok(());
        }
        let decided = list_of(&self.decided, part);
        let Some(leader) = self.leaders.get(seat) else {
            return Ok(());
        };
        let Some(item) = item_at(decided, leader.applied) else {
            return Ok(());
        };
        if item.0 > term {
            return Ok(());
        }
        let Some(mut leader) = self.leaders.remove(seat) else {
            return Ok(());
        };
        let items = front(decided, leader.applied);
        let sender = own_sender(&leader, items, term, item.0);
        let sent = applies(alloc, parts, term, items, &mut leader, item.0, &item.1)?;
        self.leaders.put(seat, leader)?;
        push_any(alloc, &mut self.posts, part, term, &sender, &sent.told)?;
        push_any(alloc, &mut self.posts, part, term, &sender, &sent.back)?;
        push_any(alloc, &mut self.posts, part, term, &sender, &sent.rule)
    }
}
