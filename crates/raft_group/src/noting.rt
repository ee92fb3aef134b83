//! What a group remembers behind a step of a peer: the messages that were sent, and the decided entries.
ghost use Rattle.std.specs.Prelude.{◌≡◌, ◌++◌, OnOk, IfOk, map};
ghost use Rattle.raft_log.specs.Log.{config_of};
ghost use Rattle.raft_core.specs.Ahead.{AreMessages};
ghost use Rattle.raft_core.specs.Peer.{core_of};
ghost use Rattle.raft_group.specs.Group.{sent_by, decided_after};
ghost use Rattle.raft_group.specs.Held.{AreSent};

use crate::sent::Sent;
use lists::{Copied, Listed, NoMemory};
use raft_core::{RaftCore, Sends, config_from, leads};
use raft_log::{Config, Entries, Entry, Peers};
use std::alloc::Global;

/// Messages that leave are noted as sent. Refused for want of memory alone.
pub fn note(
    alloc: Global,
    sent: &mut Listed<Sent>,
    from: u32,
    sends: &Sends,
) -> Result<(), NoMemory>
    ensures { OnOk result (sent.new ≡ sent.old ++ map (sent_by from) sends.now) }
{
    for send in sends.as_slice() {
        let message = send.1.copied(alloc)?;
        let to = send.0;
        sent.push(Sent { from, to, message })?;
    }
    Ok(())
}

// Entries are put behind others.
fn put_behind(alloc: Global, entries: &mut Entries, more: &[Entry]) -> Result<(), NoMemory>
    ensures { OnOk result (entries.new ≡ entries.old ++ more.now) }
{
    for entry in more {
        entries.push(entry.copied(alloc)?)?;
    }
    Ok(())
}

/// The decided entries behind a step of a peer: where it leads and its commit passes them, they grow by those that it
/// passed. Refused for want of memory alone.
pub fn decide(alloc: Global, decided: &mut Entries, core: &RaftCore) -> Result<(), NoMemory>
    ensures { OnOk result (decided.new ≡ decided_after decided.old (core_of core.now)) }
{
    let view = core.view();
    let have = decided.len();
    let commit = view.commit as usize;
    if !leads(view.role) {
        return Ok(());
    }
    if commit <= have {
        return Ok(());
    }
    let entries = core.log().entries();
    put_behind(alloc, decided, &entries[have..commit])
}

/// The last configuration among these entries, nobody where there is none.
pub fn latest(entries: &[Entry]) -> Config
    ensures { result ≡ config_of entries.now }
{
    let nobody = Config {
        voters: Peers::new(),
        learners: Peers::new(),
    };
    config_from(nobody, entries)
}
