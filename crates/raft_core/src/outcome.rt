//! What stands behind a step, made ahead of it.
ghost use Rattle.std.specs.Prelude.{◌≡◌, ◌≤◌, ◌++◌, IfOk, length, take};
ghost use Rattle.raft_core.specs.Ahead.{core_with, made_by, IsInput};
ghost use Rattle.raft_core.specs.Appends as rules;
ghost use Rattle.raft_core.specs.Laws.{IsPeer};
ghost use Rattle.raft_core.specs.Outcome.{IsGiven, IsOutcome};

use crate::ahead::Ahead;
use crate::counting::committed;
use crate::effects::RaftEffects;
use crate::giving::{confirmed_of, record_of, refused};
use crate::input::RaftInput;
use crate::made::Outcome;
use crate::next_log::NextLog;
use crate::rules::made_of;
use crate::sending::{appends, rows_sent};
use crate::state::PeerState;
use crate::votes::leads;
use lists::{Copied, NoMemory};
use member_change::ChangeRefused;
use raft_log::{Entry, RaftLog};
use std::alloc::Global;

// What stands behind each step of a leader: it commits what a majority has, and sends to those that want it.
fn led(alloc: Global, log: &RaftLog, ahead: Ahead) -> Result<Ahead, NoMemory>
    requires { ahead.keep ≤ length log.now.0 }
    ensures { IfOk result (λ behind. made_by log.now.0 behind ≡ rules.led (made_by log.now.0 ahead)) }
{
    if !leads(ahead.state.role) {
        return Ok(ahead);
    }
    let Ahead {
        mut state,
        keep,
        entries,
        mut sends,
        began,
    } = ahead;
    let next = NextLog::new(log, keep, entries.as_slice());
    let voters = next.voters();
    state.commit = committed(&state, &next, &voters);
    sends.append(appends(alloc, &state, &next, &voters)?)?;
    state.rows = rows_sent(alloc, &state, &next, &voters)?;
    Ok(Ahead {
        state,
        keep,
        entries,
        sends,
        began,
    })
}

// Entries in a vector of their own.
fn entries_of(alloc: Global, entries: &[Entry]) -> Result<Vec<Entry>, NoMemory>
    ensures { IfOk result (λ copy. copy.items ≡ entries.now) }
{
    let mut copy = Vec::with_capacity(alloc, entries.len())?;
    for entry in entries {
        copy.push(entry.copied(alloc)?)?;
    }
    Ok(copy)
}

// What a step gives, from what the rules leave.
fn given(
    alloc: Global,
    state: &PeerState,
    log: &RaftLog,
    change: Option<ChangeRefused>,
    ahead: Ahead,
) -> Result<Outcome, NoMemory>
    requires within { ahead.keep ≤ length log.now.0 }
    requires rises { state.now.commit ≤ ahead.state.commit }
    ensures { IfOk result (IsGiven state.now log.now.0 change ahead) }
{
    let kept = record_of(alloc, state, log, &ahead)?;
    let entries = entries_of(alloc, ahead.entries.as_slice())?;
    let next = NextLog::new(log, ahead.keep, ahead.entries.as_slice());
    let count = ahead.state.commit - state.commit;
    let committed = next.copied(alloc, state.commit, count)?;
    let confirmed = confirmed_of(&ahead.state, &next);
    Ok(Outcome {
        state: ahead.state,
        keep: ahead.keep,
        entries,
        effects: RaftEffects {
            kept,
            sends: ahead.sends,
            committed,
            began: ahead.began,
            confirmed,
            change,
        },
    })
}

/// What stands behind the step of a peer with this state and this log. Refused for want of memory alone.
pub fn outcome_of(
    alloc: Global,
    state: &PeerState,
    log: &RaftLog,
    input: &RaftInput,
) -> Result<Outcome, NoMemory>
    requires peer { IsPeer (core_with state.now log.now.0) }
    requires input { IsInput input.now }
    ensures { IfOk result (IsOutcome (core_with state.now log.now.0) input.now) }
{
    let _latest = log.config();
    let copy = state.copy(alloc)?;
    let made = made_of(alloc, copy, log, input)?;
    let ahead = led(alloc, log, made)?;
    let change = refused(state, log, input);
    let outcome = given(alloc, state, log, change, ahead)?;
    Ok(outcome)
}
