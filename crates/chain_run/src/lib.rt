//! Chains over any schedule, as a program.
//!
//! [`Chains::run`] is a world of parts behind a list of events: it equals the definition `run` of `chain_world`, event by event
//! (`world_of` in `specs/Shows` says how it is kept), so its clauses are that crate's laws. Its graph steps are a run of the graph
//! machine whose trace is the lawful Invokes and Replies, in order; each answer that was sent has its cause, and so has each reply
//! but Unknown.
//!
//! It is there to try lists of chain events with, and needs no more speed than that: a part is folded anew from its decided list
//! where it is needed. Each event has a file, in the order of `chains.rt`: `invoking`, `leading`, `taking`, `deciding`, `applying`,
//! `reading`, `replying`.
//!
//! Below are `chain_world`, with the definitions and laws, `chain_leader` with a leader's rules as code, and `part_fold` with a
//! part in memory.
#![tactic(auto)]

mod applying;
mod callers;
mod chains;
mod copies;
mod deciding;
mod invoking;
mod leaders;
mod leading;
mod listing;
mod posts;
mod reading;
mod replying;
mod taking;

pub use callers::Caller;
pub use chains::{ChainEvents, Chains, Decided, Steps};
pub use leaders::{Leaders, Seat, Seated};
pub use posts::{ChainPost, ChainPosts};
