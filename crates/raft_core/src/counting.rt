//! What a leader commits.
ghost use Rattle.std.specs.Prelude.{◌≡◌, ◌==◌, ◌&&◌, length};
ghost use Rattle.raft_log.specs.Log.{term_at};
ghost use Rattle.raft_core.specs.Ahead.{core_with};
ghost use Rattle.raft_core.specs.Appends as rules;
ghost use Rattle.raft_core.specs.Commits as numbers;
ghost use Rattle.raft_core.specs.Core as core;

use crate::leader::matched_in;
use crate::next_log::NextLog;
use crate::state::PeerState;
use raft_log::Peers;

fn known_of(state: &PeerState, last: u64, voter: u32) -> u64
    ensures { result ≡ numbers.known_of state.now last voter }
{
    if voter == state.me {
        return last;
    }
    matched_in(state.rows.as_slice(), voter)
}

// Whether more than half of these voters are known to have an index.
fn is_had(state: &PeerState, last: u64, voters: &Peers, index: u64) -> bool
    ensures { result ≡ numbers.is_had (numbers.known_of state.now last) voters.now index }
{
    let mut count: usize = 0;
    for voter in voters.as_slice() {
        if index <= known_of(state, last, *voter) {
            count += 1;
        }
    }
    voters.len() < 2 * count
}

// The greatest of the voters' numbers that more than half of them have, 0 where there is none.
fn greatest_had(state: &PeerState, last: u64, voters: &Peers) -> u64
    ensures { result ≡ numbers.greatest_had (numbers.known_of state.now last) voters.now voters.now }
{
    let ids = voters.as_slice();
    let mut greatest = 0;
    let mut left = ids.len();
    while left > 0 {
        left -= 1;
        let known = known_of(state, last, ids[left]);
        if is_had(state, last, voters, known) {
            greatest = known.max(greatest);
        }
    }
    greatest
}

// Whether an entry is of the own term, and a majority has it.
fn is_committable(state: &PeerState, log: &NextLog, voters: &Peers, index: u64) -> bool
    ensures { result ≡ ((term_at log.now index == state.now.term) && numbers.is_had (numbers.known_of state.now (length log.now)) voters.now index) }
{
    log.term_at(index) == state.term && is_had(state, log.len(), voters, index)
}

/// What a leader has committed behind its step: the greatest index of an entry of its own term that a majority of the
/// voters has, where that is above the commit.
pub fn committed(state: &PeerState, log: &NextLog, voters: &Peers) -> u64
    requires { voters.now ≡ core.voters_of (core_with state.now log.now) }
    ensures { result ≡ (rules.committing (core_with state.now log.now)).commit }
{
    let last = log.len();
    let mut left = greatest_had(state, last, voters).min(last);
    if log.is_older(left, state.term) {
        return state.commit;
    }
    while state.commit < left {
        if is_committable(state, log, voters, left) {
            return left;
        }
        left -= 1;
    }
    state.commit
}
