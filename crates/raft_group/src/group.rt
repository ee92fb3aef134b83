//! A group of peers.
ghost use Rattle.std.specs.Prelude.{◌≡◌, ◌++◌, ℕ, List, [], ◌∷◌, OnOk, IfOk};
ghost use Rattle.std.specs.Option.{option_copied, option_map};
ghost use Rattle.raft_log.specs.Config.{IsConfig};
ghost use Rattle.raft_core.specs.Core.{opened};
ghost use Rattle.raft_core.specs.Peer.{core_of};
ghost use Rattle.raft_group.specs.Facts.{GroupFacts};
ghost use Rattle.raft_group.specs.Group as definition;
ghost use Rattle.raft_group.specs.Group.{first_entry};
ghost use Rattle.raft_group.specs.Held.{AreSent, AreFounded, Holds, log_of, confirmed_in};
ghost use Rattle.raft_group.specs.Invariant.{IsFirst};
ghost use Rattle.raft_group.specs.Moments.{OnlyGrows, LeadersAreComplete};

use crate::event::{GroupEvent, GroupEvents, Spur};
use crate::noting::{decide, latest, note};
use crate::one_step::{input_of, step, stop};
use crate::placed::{PlacedPeer, PlacedPeers};
use crate::sent::Sent;
use lists::{Listed, NoMemory};
use member_change::is_member;
use raft_core::RaftCore;
use raft_log::{Config, Entries, Entry, Item, RaftLog};
use std::alloc::Global;

/// A group of peers: those that were ever placed, all messages ever sent, and what was decided.
#[derive(Drop)]
pub struct Group {
    peers: PlacedPeers,
    sent: Listed<Sent>,
    decided: Entries,
}

// A peer of the first configuration, which has its entry.
fn first_core(alloc: Global, id: u32, first: &Config) -> Result<RaftCore, NoMemory>
    requires { IsConfig first.now }
    ensures { IfOk result (λ core. core_of core ≡ opened id 0 0 (first_entry first.now ∷ [])) }
{
    let mut log = RaftLog::new(alloc);
    log.reserve(1)?;
    log.append(Entry {
        term: 0,
        item: Item::Members(first.copy()),
    });
    Ok(RaftCore::open(alloc, id, 0, 0, log))
}

// Peers of the first configuration are placed.
fn found(
    alloc: Global,
    peers: &mut PlacedPeers,
    first: &Config,
    ids: &[u32],
) -> Result<(), NoMemory>
    requires { IsConfig first.now }
    ensures { (before : List ℕ) → AreFounded first.now before peers.old → OnOk result (AreFounded first.now (before ++ ids.now) peers.new) }
{
    for id in ids {
        let core = first_core(alloc, *id, first)?;
        peers.put(
            *id,
            PlacedPeer {
                is_member: true,
                core,
            },
        )?;
    }
    Ok(())
}

// The group with which it begins.
fn start(alloc: Global, first: &Config) -> Result<Group, NoMemory>
    requires { IsConfig first.now }
    ensures group { IfOk result (λ group. Holds group (definition.start first.now)) }
    ensures sent { IfOk result (λ group. AreSent group.sent) }
    ensures first { OnOk result (IsFirst first.now) }
{
    let mut peers = PlacedPeers::new(alloc);
    found(alloc, &mut peers, first, first.voters.as_slice())?;
    found(alloc, &mut peers, first, first.learners.as_slice())?;
    Ok(Group {
        peers,
        sent: Listed::new(alloc),
        decided: Listed::new(alloc),
    })
}

impl Group {
    /// The group behind these events, from this first configuration. Refused for want of memory alone.
    pub fn run(alloc: Global, first: &Config, events: &GroupEvents) -> Result<Group, NoMemory>
        requires { IsConfig first.now }
        ensures run { IfOk result (λ group. Holds group (definition.run first.now events.now)) }
        ensures facts { OnOk result (GroupFacts (definition.run first.now events.now)) }
        ensures grows { OnOk result (OnlyGrows first.now) }
        ensures complete { OnOk result (LeadersAreComplete first.now) }
    {
        let mut group = start(alloc, first)?;
        for event in events.as_slice() {
            group.take(alloc, event)?;
        }
        Ok(group)
    }

    /// The decided entries.
    pub fn decided(&self) -> &Entries
        ensures { (g : definition.Group) → Holds self.now g → result.now ≡ g.decided }
    {
        &self.decided
    }

    /// The log of a member; none of a peer that isn't one.
    pub fn log(&self, peer: u32) -> Option<&RaftLog>
        ensures { (g : definition.Group) → Holds self.now g → option_map (λ log. log.0) (option_copied result) ≡ log_of g peer }
    {
        match self.peers.get(peer) {
            Some(placed) => {
                if placed.is_member {
                    return Some(placed.core.log());
                }
                None
            }
            None => None,
        }
    }

    /// The greatest round of a leader that a majority of its voters has confirmed; 0 of a peer that doesn't lead or is no
    /// member.
    pub fn confirmed(&self, peer: u32) -> u64
        ensures { (g : definition.Group) → Holds self.now g → result ≡ confirmed_in g peer }
    {
        match self.peers.get(peer) {
            Some(placed) => {
                if placed.is_member {
                    return placed.core.confirmed();
                }
                0
            }
            None => 0,
        }
    }

    // What happens next.
    fn take(&mut self, alloc: Global, event: &GroupEvent) -> Result<(), NoMemory>
        requires { AreSent self.old.sent }
        ensures group { (g : definition.Group) → Holds self.old g → OnOk result (Holds self.new (definition.after g event.now)) }
        ensures sent { OnOk result (AreSent self.new.sent) }
    {
        match event {
            GroupEvent::Step(peer, spur) => self.step(alloc, *peer, spur),
            GroupEvent::StepCrash(peer, spur, kept) => self.stop(alloc, *peer, spur, *kept),
            GroupEvent::Crash(peer) => self.crash(alloc, *peer),
            GroupEvent::Place(peer) => self.place(alloc, *peer),
            GroupEvent::Wipe(peer) => self.wipe(*peer),
        }
    }

    // A peer takes a step.
    fn step(&mut self, alloc: Global, peer: u32, spur: &Spur) -> Result<(), NoMemory>
        requires { AreSent self.old.sent }
        ensures group { (g : definition.Group) → Holds self.old g → OnOk result (Holds self.new (definition.after g (GroupEvent.Step peer spur.now))) }
        ensures sent { OnOk result (AreSent self.new.sent) }
    {
        let Some(input) = input_of(alloc, self.sent.as_slice(), peer, spur)? else {
            return Ok(());
        };
        if !self.peers.has_member(peer) {
            return Ok(());
        }
        let Some(mut placed) = self.peers.remove(peer) else {
            return Ok(());
        };
        let sends = step(alloc, &mut placed.core, input)?;
        note(alloc, &mut self.sent, peer, &sends)?;
        decide(alloc, &mut self.decided, &placed.core)?;
        self.peers.put(peer, placed)
    }

    // A peer crashes inside a step, behind its record or before it.
    fn stop(&mut self, alloc: Global, peer: u32, spur: &Spur, kept: bool) -> Result<(), NoMemory>
        requires { AreSent self.old.sent }
        ensures group { (g : definition.Group) → Holds self.old g → OnOk result (Holds self.new (definition.after g (GroupEvent.StepCrash peer spur.now kept))) }
        ensures sent { self.new.sent ≡ self.old.sent }
    {
        let Some(input) = input_of(alloc, self.sent.as_slice(), peer, spur)? else {
            return Ok(());
        };
        if !self.peers.has_member(peer) {
            return Ok(());
        }
        let Some(mut placed) = self.peers.remove(peer) else {
            return Ok(());
        };
        stop(alloc, &mut placed.core, input, kept)?;
        self.peers.put(peer, placed)
    }

    // A peer crashes between steps.
    fn crash(&mut self, alloc: Global, peer: u32) -> Result<(), NoMemory>
        ensures group { (g : definition.Group) → Holds self.old g → OnOk result (Holds self.new (definition.after g (GroupEvent.Crash peer))) }
        ensures sent { self.new.sent ≡ self.old.sent }
    {
        if !self.peers.has_member(peer) {
            return Ok(());
        }
        let Some(mut placed) = self.peers.remove(peer) else {
            return Ok(());
        };
        placed.core.crash(alloc);
        self.peers.put(peer, placed)
    }

    // A new peer, that was never in the group, is placed.
    fn place(&mut self, alloc: Global, peer: u32) -> Result<(), NoMemory>
        ensures group { (g : definition.Group) → Holds self.old g → OnOk result (Holds self.new (definition.after g (GroupEvent.Place peer))) }
        ensures sent { self.new.sent ≡ self.old.sent }
    {
        if peer == 0 {
            return Ok(());
        }
        if self.peers.has(peer) {
            return Ok(());
        }
        let core = RaftCore::open(alloc, peer, 0, 0, RaftLog::new(alloc));
        self.peers.put(
            peer,
            PlacedPeer {
                is_member: true,
                core,
            },
        )
    }

    // A peer that the last decided configuration hasn't is wiped.
    fn wipe(&mut self, peer: u32) -> Result<(), NoMemory>
        ensures group { (g : definition.Group) → Holds self.old g → OnOk result (Holds self.new (definition.after g (GroupEvent.Wipe peer))) }
        ensures sent { self.new.sent ≡ self.old.sent }
    {
        let config = latest(self.decided.as_slice());
        if is_member(&config, peer) {
            return Ok(());
        }
        if !self.peers.has_member(peer) {
            return Ok(());
        }
        let Some(mut placed) = self.peers.remove(peer) else {
            return Ok(());
        };
        placed.is_member = false;
        self.peers.put(peer, placed)
    }
}
