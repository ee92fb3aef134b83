//! A group of peers that keep one log between them, and why it is safe: whatever is delivered, again, late or never,
//! whenever a peer crashes, between its steps or inside one, and while members come and go.
//!
//! A group (`specs/Group`) is its peers' states, all messages ever sent, and what was decided; an event is a step of a
//! peer, a crash, a new peer or one that leaves. What holds of every run stands in `specs/Facts`: one leader a term,
//! prefix agreement, rising terms, each entry made by the leader of its term, and that a ready leader whose round is
//! confirmed knew, when the round began, all that was decided. `specs/Moments` adds what is said of two moments of a
//! run: what is decided stays, terms rise, and later leaders have what was decided.
//!
//! [`Group::run`] is such a group as a program: its peers, the messages and the decided list are those of the definition's
//! run (`specs/Held`), and the facts are its clauses.
//!
//! The proof keeps a history beside the group, whose critical steps are those of `raft_history`: `specs/Invariant` is
//! what holds of each peer and message, `specs/Rounds` what holds of rounds. Below are `raft_core`, one peer's step, and
//! `raft_history`; above it are the replicas of a part, which take these facts and nothing of votes or rounds.
#![tactic(auto)]

mod event;
mod group;
mod laws;
mod noting;
mod one_step;
mod placed;
mod sent;

pub use event::{GroupEvent, GroupEvents, Spur};
pub use group::Group;
pub use laws::{
    every_run_is_sound, leaders_are_complete, only_grows, peers_are_first, runs_on, safe_always,
    terms_rise, worked_changes, worked_leaders, worked_runs,
};
