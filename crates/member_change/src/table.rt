//! Which change a leader may make.
ghost use Rattle.std.specs.Prelude.{◌≡◌, ◌<◌, ◌≤◌, length, take, not, false, IfOk};
ghost use Rattle.raft_log.specs.Config.{IsConfig};
ghost use Rattle.raft_log.specs.Log.{has_entry_of};
ghost use Rattle.member_change.specs.Permit as rows;

use crate::change::{Change, ChangeRefused};
use raft_log::{Config, RaftLog, Role};

fn leads(role: Role) -> bool
    ensures { not result ≡ rows.isnt_leader role }
{
    match role {
        Role::Follower => false,
        Role::Candidate => false,
        Role::Leader => true,
    }
}

// Whether an entry up to an index has the term. It is looked for from there on back.
fn has_entry(log: &RaftLog, last: u64, term: u64) -> bool
    requires { last ≤ length log.now.0 }
    ensures { result ≡ has_entry_of term (take last log.now.0) }
{
    let mut left = last;
    while left > 0 {
        if log.matches(left, term) {
            return true;
        }
        left -= 1;
    }
    false
}

// Whether an entry of the term is committed. Where terms rise along the log, one look tells it.
fn has_committed(log: &RaftLog, commit: u64, term: u64) -> bool
    ensures { result ≡ has_entry_of term (take commit log.now.0) }
{
    let last = log.len().min(commit);
    if log.is_older(last, term) {
        return false;
    }
    has_entry(log, last, term)
}

fn removes_itself(me: u32, change: Change) -> bool
    ensures { result ≡ rows.removes_itself me change }
{
    match change {
        Change::Remove(peer) => peer == me,
        Change::AddLearner(_) => false,
        Change::Promote(_) => false,
    }
}

/// Whether a peer is a voter or a learner.
pub fn is_member(config: &Config, peer: u32) -> bool
    ensures { result ≡ rows.is_member peer config.now }
{
    config.voters.contains(peer) || config.learners.contains(peer)
}

fn names_no_member(config: &Config, change: Change) -> bool
    ensures { result ≡ rows.names_no_member config.now change }
{
    match change {
        Change::AddLearner(_) => false,
        Change::Promote(peer) => !is_member(config, peer),
        Change::Remove(peer) => !is_member(config, peer),
    }
}

fn is_so_already(config: &Config, change: Change) -> bool
    ensures { result ≡ rows.is_so_already config.now change }
{
    match change {
        Change::AddLearner(peer) => is_member(config, peer),
        Change::Promote(peer) => config.voters.contains(peer),
        Change::Remove(_) => false,
    }
}

fn leaves_no_voter(config: &Config, change: Change) -> bool
    ensures { result ≡ rows.leaves_no_voter config.now change }
{
    match change {
        Change::AddLearner(_) => false,
        Change::Promote(_) => false,
        Change::Remove(peer) => config.voters.contains(peer) && config.voters.len() == 1,
    }
}

fn promotes_behind(matched: u64, commit: u64, change: Change) -> bool
    ensures { result ≡ rows.promotes_behind matched commit change }
{
    match change {
        Change::AddLearner(_) => false,
        Change::Promote(_) => matched < commit,
        Change::Remove(_) => false,
    }
}

fn finds_no_place(config: &Config, change: Change) -> bool
    requires { IsConfig config.now }
    ensures { result ≡ rows.finds_no_place config.now change }
{
    match change {
        Change::AddLearner(_) => 8 <= config.voters.len() + config.learners.len(),
        Change::Promote(_) => false,
        Change::Remove(_) => false,
    }
}

// The configuration behind a change that no row refuses.
fn changed(config: &Config, change: Change) -> Config
    requires is { IsConfig config.now }
    requires above { 0 < rows.member_in change }
    requires named { rows.names_no_member config.now change ≡ false }
    requires fresh { rows.is_so_already config.now change ≡ false }
    requires place { rows.finds_no_place config.now change ≡ false }
    ensures changed { result ≡ rows.changed config.now change }
    ensures is { IsConfig result }
{
    match change {
        Change::AddLearner(peer) => Config {
            voters: config.voters.copy(),
            learners: config.learners.with(peer),
        },
        Change::Promote(peer) => Config {
            voters: config.voters.with(peer),
            learners: config.learners.without(peer),
        },
        Change::Remove(peer) => Config {
            voters: config.voters.without(peer),
            learners: config.learners.without(peer),
        },
    }
}

// The rows that look at the configuration alone.
fn permit_in(
    config: &Config,
    commit: u64,
    me: u32,
    matched: u64,
    change: Change,
) -> Result<Config, ChangeRefused>
    requires is { IsConfig config.now }
    requires above { 0 < rows.member_in change }
    ensures answers { result ≡ rows.permitted_in config.now commit me matched change }
    ensures is { IfOk result IsConfig }
{
    if removes_itself(me, change) {
        return Err(ChangeRefused::LeaderStays);
    }
    if names_no_member(config, change) {
        return Err(ChangeRefused::NotMember);
    }
    if is_so_already(config, change) {
        return Err(ChangeRefused::AlreadySo);
    }
    if leaves_no_voter(config, change) {
        return Err(ChangeRefused::LastVoter);
    }
    if promotes_behind(matched, commit, change) {
        return Err(ChangeRefused::Behind(matched, commit));
    }
    if finds_no_place(config, change) {
        return Err(ChangeRefused::MembersFull);
    }
    Ok(changed(config, change))
}

/// The configuration behind a change, or why it is refused: the first row of the table that holds. `matched` is up to
/// which index the named peer is known to have the log.
pub fn permit(
    role: Role,
    log: &RaftLog,
    commit: u64,
    term: u64,
    me: u32,
    matched: u64,
    change: Change,
) -> Result<Config, ChangeRefused>
    requires { 0 < rows.member_in change }
    ensures answers { result ≡ rows.permit role log.now.0 commit term me matched change }
    ensures is { IfOk result IsConfig }
{
    let latest = log.config();
    if !leads(role) {
        return Err(ChangeRefused::NotLeader);
    }
    if commit < latest.index {
        return Err(ChangeRefused::ChangeOpen(latest.index));
    }
    if !has_committed(log, commit, term) {
        return Err(ChangeRefused::NoEntryOfTerm);
    }
    permit_in(&latest.config, commit, me, matched, change)
}
