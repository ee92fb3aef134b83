//! What a step gives beside its state: its record, the round that is confirmed, and why an input is refused.
ghost use Rattle.std.specs.Prelude.{◌≡◌, [], IfOk};
ghost use Rattle.raft_log.specs.Majority.{is_majority};
ghost use Rattle.raft_core.specs.Ahead.{core_with, made_by, IsInput};
ghost use Rattle.raft_core.specs.Confirming.{is_confirmed_by, greatest_among};
ghost use Rattle.raft_core.specs.Rounds as rounds;
ghost use Rattle.raft_core.specs.Step as rules;

use crate::ahead::Ahead;
use crate::effects::NotLeader;
use crate::input::RaftInput;
use crate::leader::permitted;
use crate::next_log::NextLog;
use crate::progress::Row;
use crate::state::PeerState;
use crate::votes::leads;
use lists::NoMemory;
use member_change::ChangeRefused;
use raft_log::{Peers, RaftLog, Record};
use std::alloc::Global;

/// The refusal of an input that only a leader takes, where the peer doesn't lead.
pub fn refusal(state: &PeerState, log: &RaftLog, input: &RaftInput) -> Option<NotLeader>
    ensures { result ≡ rules.refusal (core_with state.now log.now.0) input.now }
{
    if leads(state.role) {
        return None;
    }
    match input {
        RaftInput::Msg(_, _) => None,
        RaftInput::Elect => None,
        RaftInput::Pulse => None,
        RaftInput::Propose(_) => Some(NotLeader { hint: state.hint }),
        RaftInput::Transfer(_) => Some(NotLeader { hint: state.hint }),
        RaftInput::Change(_) => Some(NotLeader { hint: state.hint }),
        RaftInput::Confirm => Some(NotLeader { hint: state.hint }),
    }
}

/// Why a change of members is refused at a leader.
pub fn refused(state: &PeerState, log: &RaftLog, input: &RaftInput) -> Option<ChangeRefused>
    requires { IsInput input.now }
    ensures { result ≡ rules.refusal_of (core_with state.now log.now.0) input.now }
{
    let RaftInput::Change(change) = input else {
        return None;
    };
    if !leads(state.role) {
        return None;
    }
    match permitted(state, log, *change) {
        Ok(_) => None,
        Err(refusal) => Some(refusal),
    }
}

// Whether term, vote and log are as they were.
fn is_unchanged(state: &PeerState, log: &RaftLog, ahead: &Ahead) -> bool
    ensures { result ≡ rules.is_unchanged (core_with state.now log.now.0) (made_by log.now.0 ahead.now) }
{
    ahead.state.term == state.term && ahead.state.vote == state.vote && ahead.entries.is_empty()
}

/// The record of a step, where term, vote or log changed.
pub fn record_of(
    alloc: Global,
    state: &PeerState,
    log: &RaftLog,
    ahead: &Ahead,
) -> Result<Option<Record>, NoMemory>
    ensures { IfOk result (λ record_made. record_made ≡ rules.record_of (core_with state.now log.now.0) (made_by log.now.0 ahead.now)) }
{
    if is_unchanged(state, log, ahead) {
        return Ok(None);
    }
    Ok(Some(Record {
        term: ahead.state.term,
        vote: ahead.state.vote,
        keep: ahead.keep,
        entries: ahead.entries.copy(alloc)?,
    }))
}

// The round that a member has confirmed, 0 of one that has no row.
fn confirmed_in(rows: &[Row], peer: u32) -> u64
    ensures { result ≡ rounds.confirmed_in rows.now peer }
{
    for row in rows {
        if row.peer == peer {
            return row.progress.confirmed;
        }
    }
    0
}

// The leader counts itself by its own round.
fn confirmed_by(state: &PeerState, voter: u32) -> u64
    ensures { result ≡ rounds.confirmed_by (core_with state.now []) voter }
{
    if voter == state.me {
        return state.round;
    }
    confirmed_in(state.rows.as_slice(), voter)
}

// Whether more than half of these voters have confirmed the round.
fn is_confirmed(state: &PeerState, voters: &Peers, round: u64) -> bool
    ensures { result ≡ is_majority voters.now (is_confirmed_by state.now round) }
{
    let mut count: usize = 0;
    for voter in voters.as_slice() {
        if round <= confirmed_by(state, *voter) {
            count += 1;
        }
    }
    voters.len() < 2 * count
}

/// The greatest round that more than half of these voters have confirmed, 0 where there is none.
pub fn greatest_confirmed(state: &PeerState, voters: &Peers) -> u64
    ensures { result ≡ greatest_among state.now voters.now voters.now }
{
    let ids = voters.as_slice();
    let mut greatest = 0;
    let mut left = ids.len();
    while left > 0 {
        left -= 1;
        let round = confirmed_by(state, ids[left]);
        if is_confirmed(state, voters, round) {
            greatest = round.max(greatest);
        }
    }
    greatest
}

/// The greatest round that is confirmed behind a step, 0 where the peer doesn't lead.
pub fn confirmed_of(state: &PeerState, log: &NextLog) -> u64
    ensures { result ≡ rounds.confirmed_of (core_with state.now log.now) }
{
    if !leads(state.role) {
        return 0;
    }
    let voters = log.voters();
    greatest_confirmed(state, &voters)
}
