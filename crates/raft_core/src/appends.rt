//! Entries: how a follower takes them, and what a leader learns of them.
ghost use Rattle.std.specs.Prelude.{◌≡◌, ◌<◌, ◌≤◌, ◌+◌, ◌-◌, ◌^◌, List, ℕ, IfOk, map, drop, take, length, true, nat_lt, ◌&&◌, ◌==◌, if◌then◌else◌};
ghost use Rattle.std.specs.List.{AllByRecursion};
ghost use Rattle.raft_core.specs.Ahead.{core_with, made_by, agreeing};
ghost use Rattle.raft_core.specs.Appends as rules;
ghost use Rattle.raft_core.specs.Core as core;
ghost use Rattle.raft_core.specs.Laws.{IsRow};

use crate::ahead::{Ahead, one, said, still};
use crate::progress::Row;
use crate::state::{PeerState, Rows};
use crate::votes::leads;
use lists::{Copied, Listed, NoMemory};
use raft_log::{Entries, Entry, Mark, RaftLog, RaftMsg, Role};
use std::alloc::Global;

// How many entries agree with those of the log behind an index, up to a bound.
fn agree(log: &RaftLog, behind: u64, bound: u64, entries: &[Entry]) -> usize
    ensures count { result ≡ agreeing (drop behind (take bound log.now.0)) entries.now }
    ensures within { result ≤ length entries.now }
    ensures inside { behind ≤ length log.now.0 → behind + result ≤ length log.now.0 }
{
    let last = log.len().min(bound);
    if last <= behind {
        return 0;
    }
    let mut count: usize = 0;
    for entry in entries {
        let index = behind + count as u64 + 1;
        if last < index || log.term_at(index) != entry.term {
            return count;
        }
        count += 1;
    }
    count
}

// Entries from a place on, in memory of their own.
fn copied_from(alloc: Global, entries: &[Entry], first: usize) -> Result<Entries, NoMemory>
    requires { first ≤ length entries.now }
    ensures { IfOk result (λ copy. copy ≡ drop first entries.now) }
{
    let mut copy = Listed::new(alloc);
    for entry in &entries[first..] {
        copy.push(entry.copied(alloc)?)?;
    }
    Ok(copy)
}

fn row_told(row: Row, from: u32, ok: bool, index: u64, round: u64) -> Row
    requires matched { row.progress.matched < 2 ^ 64 - 1 }
    requires index { index < 2 ^ 64 - 1 }
    ensures { result ≡ rules.row_told from ok index round row }
{
    if row.peer != from {
        return row;
    }
    let mut progress = row.progress;
    let _changed = progress.on_appended(ok, index, round);
    Row {
        peer: row.peer,
        progress,
    }
}

// The rows behind an Appended.
fn rows_told(
    alloc: Global,
    rows: &[Row],
    from: u32,
    ok: bool,
    index: u64,
    round: u64,
    last: u64,
) -> Result<Rows, NoMemory>
    requires rows { AllByRecursion (IsRow last) rows.now }
    requires last { last < 2 ^ 63 }
    requires index { index ≤ last }
    ensures { IfOk result (λ all. all ≡ map (rules.row_told from ok index round) rows.now) }
{
    let mut all = Listed::new(alloc);
    for row in rows {
        all.push(row_told(*row, from, ok, index, round))?;
    }
    Ok(all)
}

/// What an Appended of the own term makes.
pub fn told(
    alloc: Global,
    mut state: PeerState,
    log: &RaftLog,
    from: u32,
    ok: bool,
    index: u64,
    round: u64,
) -> Result<Ahead, NoMemory>
    requires { core.is_leading state.role ≡ true → AllByRecursion (IsRow (length log.now.0)) state.rows }
    ensures { IfOk result (λ ahead. made_by log.now.0 ahead ≡ core.still (rules.told (core_with state log.now.0) from ok index round)) }
{
    let last = log.len();
    if !leads(state.role) {
        return Ok(still(alloc, state, log));
    }
    if last < index {
        return Ok(still(alloc, state, log));
    }
    state.rows = rows_told(alloc, state.rows.as_slice(), from, ok, index, round, last)?;
    Ok(still(alloc, state, log))
}

fn row_cleared(row: Row) -> Row
    ensures { result ≡ rules.row_cleared row }
{
    let mut progress = row.progress;
    progress.in_flight = false;
    progress.told = 0;
    Row {
        peer: row.peer,
        progress,
    }
}

/// The rows of a leader that is to send anew.
pub fn rows_cleared(alloc: Global, rows: &[Row]) -> Result<Rows, NoMemory>
    ensures { IfOk result (λ all. all ≡ map rules.row_cleared rows.now) }
{
    let mut all = Listed::new(alloc);
    for row in rows {
        all.push(row_cleared(*row))?;
    }
    Ok(all)
}

// Whether a number is below both.
fn is_below_both(count: u64, own: u64, new: u64) -> bool
    ensures { result ≡ (nat_lt count own && nat_lt count new) }
{
    count < own && count < new
}

// Whether an entry that came stands against one that is committed.
fn is_out_of_order(log: &RaftLog, commit: u64, previous: Mark, entries: &[Entry]) -> bool
    requires { commit ≤ length log.now.0 }
    ensures { result ≡ rules.conflicts (drop previous.index (take commit log.now.0)) entries.now }
{
    let count = agree(log, previous.index, commit, entries);
    let own = commit.saturating_sub(previous.index);
    is_below_both(count as u64, own, entries.len() as u64)
}

// How many entries of a log stay, where so many of those that were sent behind an index agree.
fn kept(len: u64, behind: u64, count: u64, sent: u64) -> u64
    requires { behind + count ≤ len }
    ensures { result ≡ (if count == sent then len else behind + count) }
{
    if count == sent { len } else { behind + count }
}

// Entries that came are taken behind the previous one, which is the own.
fn accepted(
    alloc: Global,
    mut state: PeerState,
    log: &RaftLog,
    from: u32,
    previous: Mark,
    commit: u64,
    round: u64,
    entries: &Entries,
) -> Result<Ahead, NoMemory>
    requires { previous.index ≤ length log.now.0 }
    ensures { IfOk result (λ ahead. made_by log.now.0 ahead ≡ rules.accepted (core_with state log.now.0) from previous commit round entries.now) }
{
    let count = agree(log, previous.index, log.len(), entries.as_slice());
    let keep = kept(
        log.len(),
        previous.index,
        count as u64,
        entries.len() as u64,
    );
    let new = copied_from(alloc, entries.as_slice(), count)?;
    let reach = previous.index + entries.len() as u64;
    let sends = one(
        alloc,
        from,
        RaftMsg::Appended(state.term, true, reach, round),
    )?;
    state.commit = state.commit.max(commit.min(reach));
    Ok(Ahead {
        state,
        keep,
        entries: new,
        sends,
        began: false,
    })
}

/// What an Append of the own term makes.
pub fn taken(
    alloc: Global,
    mut state: PeerState,
    log: &RaftLog,
    from: u32,
    previous: Mark,
    commit: u64,
    round: u64,
    entries: &Entries,
) -> Result<Ahead, NoMemory>
    requires { state.commit ≤ length log.now.0 }
    ensures { IfOk result (λ ahead. made_by log.now.0 ahead ≡ rules.taken (core_with state log.now.0) from previous commit round entries.now) }
{
    if is_out_of_order(log, state.commit, previous, entries.as_slice()) {
        return Ok(still(alloc, state, log));
    }
    state.role = Role::Follower;
    state.hint = from;
    state.heard = true;
    if log.matches(previous.index, previous.term) {
        return accepted(alloc, state, log, from, previous, commit, round, entries);
    }
    let behind = previous.index.saturating_sub(1).min(log.len());
    let sends = one(
        alloc,
        from,
        RaftMsg::Appended(state.term, false, behind, round),
    )?;
    Ok(said(alloc, state, log, sends))
}
