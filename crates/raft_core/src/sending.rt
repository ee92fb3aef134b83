//! What a leader sends behind its step, of its log as it is then.
ghost use Rattle.std.specs.Prelude.{◌≡◌, IfOk, map};
ghost use Rattle.std.specs.List.{filter_map};
ghost use Rattle.raft_core.specs.Ahead.{core_with};
ghost use Rattle.raft_core.specs.Appends as rules;
ghost use Rattle.raft_core.specs.Core as core;

use crate::effects::Sends;
use crate::next_log::NextLog;
use crate::progress::{Progress, Row};
use crate::state::{PeerState, Rows};
use lists::{Listed, NoMemory};
use raft_log::{Mark, Peers, RaftMsg};
use std::alloc::Global;

/// How many entries an Append carries at most.
pub const MOST_ENTRIES: u64 = 64;

// Whether a member is to be sent an Append.
fn wants(state: &PeerState, log: &NextLog, voters: &Peers, row: Row) -> bool
    requires { voters.now ≡ core.voters_of (core_with state.now log.now) }
    ensures { result ≡ rules.wants (core_with state.now log.now) row }
{
    let progress = row.progress;
    if progress.in_flight {
        return false;
    }
    if progress.next <= log.len() {
        return true;
    }
    if progress.told < state.commit {
        return true;
    }
    voters.contains(row.peer) && progress.confirmed < state.round
}

// The Append for a member.
fn append_for(
    alloc: Global,
    state: &PeerState,
    log: &NextLog,
    progress: Progress,
) -> Result<RaftMsg, NoMemory>
    ensures { IfOk result (λ message. message ≡ rules.append_for (core_with state.now log.now) progress) }
{
    let behind = progress.next.saturating_sub(1);
    let previous = Mark {
        index: behind,
        term: log.term_at(behind),
    };
    let entries = log.copied(alloc, behind, MOST_ENTRIES)?;
    Ok(RaftMsg::Append(state.term, previous, state.commit, state.round, entries))
}

/// The Appends that a leader sends.
pub fn appends(
    alloc: Global,
    state: &PeerState,
    log: &NextLog,
    voters: &Peers,
) -> Result<Sends, NoMemory>
    requires { voters.now ≡ core.voters_of (core_with state.now log.now) }
    ensures { IfOk result (λ sends. sends ≡ rules.appends (core_with state.now log.now)) }
{
    let mut sends = Listed::new(alloc);
    for row in state.rows.as_slice() {
        if wants(state, log, voters, *row) {
            sends.push((row.peer, append_for(alloc, state, log, row.progress)?))?;
        }
    }
    Ok(sends)
}

fn row_sent(state: &PeerState, log: &NextLog, voters: &Peers, row: Row) -> Row
    requires { voters.now ≡ core.voters_of (core_with state.now log.now) }
    ensures { result ≡ rules.row_sent (core_with state.now log.now) row }
{
    if !wants(state, log, voters, row) {
        return row;
    }
    let mut progress = row.progress;
    progress.in_flight = true;
    progress.told = state.commit;
    Row {
        peer: row.peer,
        progress,
    }
}

/// The rows behind them.
pub fn rows_sent(
    alloc: Global,
    state: &PeerState,
    log: &NextLog,
    voters: &Peers,
) -> Result<Rows, NoMemory>
    requires { voters.now ≡ core.voters_of (core_with state.now log.now) }
    ensures { IfOk result (λ rows. rows ≡ map (rules.row_sent (core_with state.now log.now)) state.now.rows) }
{
    let mut all = Listed::new(alloc);
    for row in state.rows.as_slice() {
        all.push(row_sent(state, log, voters, *row))?;
    }
    Ok(all)
}
