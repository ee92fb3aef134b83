//! A part gets a leader; a leader proposes a configuration.
ghost use Rattle.std.specs.Prelude.{◌≡◌, take, IfOk};
ghost use Rattle.chain_world.specs.Events.{are_below, are_at_most, new_leader};
ghost use Rattle.chain_run.specs.Shows.{leader_of};

use crate::chains::{Chains, is_part};
use crate::leaders::{Seat, Seated};
use crate::listing::{list_of, push_to};
use chain_leader::{ChainTable, Leader};
use lists::{Listed, NoMemory};
use part_fold::Numbered;
use part_keys::{Policy, Proposal};
use raft_log::Config;
use std::alloc::Global;

/// Whether each of these items is of a term below this one.
fn are_below(term: u64, items: &[(u64, Proposal)]) -> bool
    ensures { result ≡ are_below term items.now }
{
    for item in items {
        if item.0 >= term {
            return false;
        }
    }
    true
}

/// Whether none of these items is of a greater term.
pub(crate) fn are_at_most(term: u64, items: &[(u64, Proposal)]) -> bool
    ensures { result ≡ are_at_most term items.now }
{
    for item in items {
        if item.0 > term {
            return false;
        }
    }
    true
}

/// The first items, as many as are asked for, or all where there are fewer.
pub(crate) fn front<X>(items: &[X], count: u64) -> &[X]
    ensures { result.now ≡ take count items.now }
{
    if count >= items.len() as u64 {
        return items;
    }
    &items[..count as usize]
}

impl Chains {
    ghost use Rattle.std.specs.Prelude.{◌≡◌, ◌==◌, if◌then◌else◌, OnOk};
    ghost use Rattle.chain_world.specs.Events.{may_lead, new_leader};
    ghost use Rattle.chain_world.specs.State.{with_leader};
    ghost use Rattle.part_keys.specs.declared.vid_kind.VidKind.{VidKind};
    ghost use Rattle.chain_world.specs.World.{after};
    ghost use Rattle.chain_world.specs.declared.event.ChainEvent.TheVariants as happens;
    ghost use Rattle.chain_run.specs.Shows.{world_of};

    // A leader's next proposal is a configuration; at term 0, which has no leader, it is the first one, and the only proposal.
    pub(crate) fn propose_members(
        &mut self,
        alloc: Global,
        parts: u32,
        part: u32,
        term: u64,
        config: &Config,
    ) -> Result<(), NoMemory>
        ensures { (ids : VidKind) → OnOk result (world_of self.new ≡ after ids parts (world_of self.old) (happens.Members part term config.now)) }
    {
        if !is_part(parts, part) {
            return Ok(());
        }
        if term == 0 {
            if !list_of(&self.founded, part).is_empty() {
                return Ok(());
            }
            return push_to(
                alloc,
                &mut self.founded,
                part,
                Proposal::Members(config.copy()),
            );
        }
        let seat = Seat { part, term };
        if !self.leaders.has(seat) {
            return Ok(());
        }
        let Some(mut leader) = self.leaders.remove(seat) else {
            return Ok(());
        };
        leader.made.push(Proposal::Members(config.copy()))?;
        self.leaders.put(seat, leader)
    }

    // Whether a part may get a leader of this term that has applied so many items.
    fn may_lead(&self, part: u32, term: u64, applied: u64) -> bool
        ensures { result ≡ may_lead (world_of self.now) part term applied }
    {
        if term == 0 {
            return false;
        }
        if self.leaders.has(Seat { part, term }) {
            return false;
        }
        let decided = list_of(&self.decided, part);
        if applied > decided.len() as u64 {
            return false;
        }
        are_below(term, front(decided, applied))
    }

    // A part gets a leader of a new term, beside those that it has.
    pub(crate) fn lead(
        &mut self,
        alloc: Global,
        parts: u32,
        part: u32,
        term: u64,
        policy: Policy,
        applied: u64,
    ) -> Result<(), NoMemory>
        ensures { (ids : VidKind) → OnOk result (world_of self.new ≡ after ids parts (world_of self.old) (happens.Lead part term policy applied)) }
    {
        if !is_part(parts, part) {
            return Ok(());
        }
        if !self.may_lead(part, term, applied) {
            return Ok(());
        }
        let leader = new_leader(alloc, policy, applied)?;
        self.leaders.put(Seat { part, term }, leader)
    }
}

// A leader that isn't ready; its first proposal is a no-op.
fn new_leader(alloc: Global, policy: Policy, applied: u64) -> Result<Seated, NoMemory>
    ensures { IfOk result (λ leader. leader_of leader ≡ new_leader policy applied) }
{
    let mut made = Listed::new(alloc);
    made.push(Proposal::Start)?;
    Ok(Seated {
        lead: Leader {
            ready: false,
            policy,
            table: ChainTable::new(alloc),
        },
        applied,
        made,
        senders: Numbered::new(alloc),
    })
}
