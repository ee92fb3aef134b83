//! One peer's step: what a member of a group does with a message, a call for an election, a pulse, a proposal, a
//! change of the members, a transfer of the lead or a round to confirm.
//!
//! A step is a function of the peer's state and the input (`specs/Step`, `stepped`): the rules for the input, and then
//! what stands behind each step of a leader, who commits and sends. `specs/Votes` has terms, votes and elections,
//! `specs/Appends` entries, `specs/Members` changes of the members and transfers, `specs/Rounds` rounds that a majority
//! confirms. It gives the new state, at most one record, the messages, and the entries that are newly committed.
//!
//! The laws hold for every state and input; those that need it ask `IsPeer`, which each state has from its opening on.
//! Below are `raft_log` and `member_change`; above it are `raft_group` and `replica_model`.
#![tactic(auto)]

mod ahead;
mod appends;
mod counting;
mod effects;
mod giving;
mod input;
mod laws;
mod leader;
mod made;
mod next_log;
mod next_peer;
mod outcome;
mod peer;
mod progress;
mod rules;
mod sending;
mod state;
mod view;
mod votes;

pub use effects::{NotLeader, RaftEffects, Sends};
pub use input::RaftInput;
pub use laws::{
    appends_as_leader, commits, gives_rounds_back, keeps_decided, kept_is_all, no_longer,
    only_leaders_propose, opened_again, rounds_rise, sends_its_log, speaks_in_its_term, stays_peer,
    worked_changes, worked_rounds, worked_steps,
};
pub use next_log::config_from;
pub use next_peer::NextPeer;
pub use peer::{RaftCore, RaftRoom};
pub use progress::{Progress, Row};
pub use state::{PeerState, Rows};
pub use view::PeerView;
pub use votes::leads;
