//! Lists of group events, as tables can hold them.
ghost use Rattle.raft_log.specs.Config.{IsConfig};

use crate::fixtures::{have_terms, voters_to};
use lists::{Bytes, NoMemory};
use member_change::Change;
use raft_group::{Group, GroupEvent, GroupEvents, Spur};
use std::alloc::Global;

/// What happens next, and at which peer: it takes the message of that number, or crashes in that step, with its record kept
/// or not; stands for election; hears that a moment passed; puts so many payloads into its log; asks a peer to lead; changes
/// the members; begins a round; crashes; is placed; or is wiped.
#[derive(Clone, Copy)]
pub enum Act {
    Take(u32, u64),
    Stop(u32, u64, bool),
    Elect(u32),
    Pulse(u32),
    Propose(u32, u32),
    Transfer(u32, u32),
    Change(u32, Change),
    Confirm(u32),
    Crash(u32),
    Place(u32),
    Wipe(u32),
}

fn times(act: Act) -> u32 {
    match act {
        Act::Propose(_, times) => times,
        _ => 1,
    }
}

fn event_of(alloc: Global, act: Act) -> GroupEvent {
    match act {
        Act::Take(peer, number) => GroupEvent::Step(peer, Spur::Sent(number)),
        Act::Stop(peer, number, kept) => GroupEvent::StepCrash(peer, Spur::Sent(number), kept),
        Act::Elect(peer) => GroupEvent::Step(peer, Spur::Elect),
        Act::Pulse(peer) => GroupEvent::Step(peer, Spur::Pulse),
        Act::Propose(peer, _) => GroupEvent::Step(peer, Spur::Propose(Bytes::new(alloc))),
        Act::Transfer(peer, to) => GroupEvent::Step(peer, Spur::Transfer(to)),
        Act::Change(peer, change) => GroupEvent::Step(peer, Spur::Change(change)),
        Act::Confirm(peer) => GroupEvent::Step(peer, Spur::Confirm),
        Act::Crash(peer) => GroupEvent::Crash(peer),
        Act::Place(peer) => GroupEvent::Place(peer),
        Act::Wipe(peer) => GroupEvent::Wipe(peer),
    }
}

// The acts, behind those before.
fn script_on(alloc: Global, events: &mut GroupEvents, acts: &[Act]) -> Result<(), NoMemory> {
    for act in acts {
        for _ in 0..times(*act) {
            events.push(event_of(alloc, *act))?;
        }
    }
    Ok(())
}

/// The group of the voters 1 to `last` behind two lists of acts.
pub fn ran(alloc: Global, last: u32, first: &[Act], more: &[Act]) -> Result<Group, NoMemory> {
    let mut events = GroupEvents::new(alloc);
    script_on(alloc, &mut events, first)?;
    script_on(alloc, &mut events, more)?;
    Group::run(alloc, &voters_to(last), &events)
}

/// Whether the decided entries have these terms.
pub fn decided(group: &Group, terms: &[u64]) -> bool {
    have_terms(group.decided().as_slice(), terms)
}

/// Whether a member's log has these terms.
pub fn logged(group: &Group, peer: u32, terms: &[u64]) -> bool {
    match group.log(peer) {
        Some(log) => have_terms(log.entries(), terms),
        None => false,
    }
}
