//! The parts of a step that is taken.
ghost use Rattle.std.specs.Prelude.{◌≡◌, ◌≤◌, map, not, vec_len, vec_capacity};
ghost use Rattle.std.specs.List.{filter};
ghost use Rattle.chain_leader.specs.Leader.{leads};
ghost use Rattle.raft_core.specs.Peer.{core_of};
ghost use Rattle.replica_model.specs.Replica.{Row};
ghost use Rattle.replica_model.specs.Stepped.{is_confirmed};
ghost use Rattle.replica_state.specs.Places.{held, number_held};
ghost use Rattle.replica_state.specs.State.{row_of};
ghost use Rattle.replica_peer.specs.Next as nexts;

use crate::next::Reads;
use chain_leader::Leader;
use part_keys::Policy;
use raft_core::{NextPeer, RaftCore};
use replica_model::Place;
use replica_state::{Places, Rule, WaitingRead, fill, let_go};

/// The Raft peer moves on, where its step isn't refused. It takes no memory.
pub(crate) fn move_on(core: &mut RaftCore, behind: Option<NextPeer>)
    requires { nexts.IsBehind core.old behind }
    ensures { core_of core.new ≡ nexts.core_behind (core_of core.old) behind }
{
    let Some(behind) = behind else {
        return;
    };
    core.move_on(behind);
}

/// What is left of the leader, before entries are applied. It takes no memory.
pub(crate) fn lead_on(leader: &mut Leader, on: bool, rule: Rule, policy: Policy, ready: bool)
    ensures leading { leads leader.new ≡ record { ready = ready; policy = policy; table = nexts.table_left on rule leader.old.table.0 } }
    ensures room { leader.old.table.1 ≤ leader.new.table.1 }
{
    leader.ready = ready;
    leader.policy = policy;
    if !on {
        leader.table.clear();
        return;
    }
    match rule {
        Rule::Stays => {}
        Rule::Asks(v) => leader.table.ask(v),
        Rule::Doubles(v) => leader.table.double(v),
    }
}

/// The senders that are left, and one more. It takes no memory.
pub(crate) fn senders_on(senders: &mut Places<Place>, on: bool, sender: Option<(u64, Place)>)
    requires { nexts.HasSenderPlace senders.old.entries sender }
    ensures { held senders.new.entries ≡ nexts.senders_left on sender (held senders.old.entries) }
{
    if !on {
        senders.clear();
        return;
    }
    let Some((index, place)) = sender else {
        return;
    };
    fill(senders, index, Some(place));
}

/// The hints that are left. It takes no memory.
pub(crate) fn hints_on(hints: &mut Places<u32>, on: bool)
    ensures { number_held hints.new.entries ≡ nexts.hints_left on (number_held hints.old.entries) }
{
    if !on {
        hints.clear();
    }
}

/// The reads that wait on, without those whose round is confirmed. It takes no memory.
pub(crate) fn reads_on(rows: &mut Vec<WaitingRead>, reads: Reads, confirmed: u64)
    requires { nexts.HasReadRoom (vec_len rows.old) (vec_capacity rows.old) reads }
    ensures { map row_of rows.new.items ≡ filter (λ (row : Row). not (is_confirmed confirmed row)) (nexts.reads_left reads (map row_of rows.old.items)) }
{
    match reads {
        Reads::Dropped => rows.clear(),
        Reads::Stay => {}
        Reads::OneMore(read) => match rows.push(read) {
            Ok(()) => {}
            Err(_) => unreachable!(),
        },
    }
    let_go(rows, confirmed);
}
