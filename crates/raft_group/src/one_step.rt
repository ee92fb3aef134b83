//! What a spur is to a peer, and the step that it takes.
ghost use Rattle.std.specs.Prelude.{◌≡◌, OnOk, IfOk};
ghost use Rattle.raft_core.specs.Ahead.{IsInput, AreMessages};
ghost use Rattle.raft_core.specs.Peer.{core_of};
ghost use Rattle.raft_core.specs.Step.{stepped};
ghost use Rattle.raft_group.specs.Group.{input_from};
ghost use Rattle.raft_group.specs.Group as definition;
ghost use Rattle.raft_group.specs.Held.{AreSent, MayBeTaken, stopped_by};

use crate::event::Spur;
use crate::sent::Sent;
use lists::{Copied, Listed, NoMemory};
use member_change::Change;
use raft_core::{RaftCore, RaftInput, Sends};
use std::alloc::Global;

// The message of that number is an input where it was sent to the peer.
fn sent_to(
    alloc: Global,
    sent: &[Sent],
    peer: u32,
    number: u64,
) -> Result<Option<RaftInput>, NoMemory>
    requires { AreSent sent.now }
    ensures input { IfOk result (λ input. input ≡ input_from sent.now peer (Spur.Sent number)) }
    ensures lawful { IfOk result MayBeTaken }
{
    let Some(letter) = sent.get(number as usize) else {
        return Ok(None);
    };
    if letter.to != peer {
        return Ok(None);
    }
    let message = letter.message.copied(alloc)?;
    Ok(Some(RaftInput::Msg(letter.from, message)))
}

// A change is an input where it names an id of at least 1.
fn changed_by(change: Change) -> Option<RaftInput>
    ensures input { result ≡ definition.changed_by change }
    ensures lawful { MayBeTaken result }
{
    if change.member() == 0 {
        return None;
    }
    Some(RaftInput::Change(change))
}

/// The input that a spur is to a peer, where it is one. Refused for want of memory alone.
pub fn input_of(
    alloc: Global,
    sent: &[Sent],
    peer: u32,
    spur: &Spur,
) -> Result<Option<RaftInput>, NoMemory>
    requires { AreSent sent.now }
    ensures input { IfOk result (λ input. input ≡ input_from sent.now peer spur.now) }
    ensures lawful { IfOk result MayBeTaken }
{
    match spur {
        Spur::Sent(number) => sent_to(alloc, sent, peer, *number),
        Spur::Elect => Ok(Some(RaftInput::Elect)),
        Spur::Pulse => Ok(Some(RaftInput::Pulse)),
        Spur::Propose(bytes) => Ok(Some(RaftInput::Propose(bytes.copy(alloc)?))),
        Spur::Transfer(to) => Ok(Some(RaftInput::Transfer(*to))),
        Spur::Change(change) => Ok(changed_by(*change)),
        Spur::Confirm => Ok(Some(RaftInput::Confirm)),
    }
}

/// A step of a peer, with the messages that it sends. What the peer refuses changes and sends nothing.
pub fn step(alloc: Global, core: &mut RaftCore, input: RaftInput) -> Result<Sends, NoMemory>
    requires { IsInput input }
    ensures core { OnOk result (core_of core.new ≡ (stepped (core_of core.old) input).core) }
    ensures sends { IfOk result (λ sends. sends ≡ (stepped (core_of core.old) input).sends) }
    ensures messages { IfOk result AreMessages }
{
    let room = core.reserve(alloc, &input)?;
    match core.step(room, input) {
        Ok(effects) => Ok(effects.sends),
        Err(_) => Ok(Listed::new(alloc)),
    }
}

/// A step that a crash stops behind its record, which is kept or not.
pub fn stop(
    alloc: Global,
    core: &mut RaftCore,
    input: RaftInput,
    kept: bool,
) -> Result<(), NoMemory>
    requires { IsInput input }
    ensures { OnOk result (core_of core.new ≡ stopped_by (core_of core.old) input kept) }
{
    if !kept {
        core.crash(alloc);
        return Ok(());
    }
    step(alloc, core, input)?;
    core.crash(alloc);
    Ok(())
}
