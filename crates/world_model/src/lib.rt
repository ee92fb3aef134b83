//! The replicated world: all replicas of all parts, the clients, the table of parts and nodes, and every packet that was ever
//! sent; and why what it does is what one graph machine does.
//!
//! Claimed, in `laws.rt`, of every list of events from any number of nodes, whatever is delivered, lost, repeated, crashed,
//! elected or moved: the graph steps of the run are a run of the graph machine, whose trace is the run's calls and answers
//! (`worlds_refine`); each answer that a client gets has its cause in what was decided (`answers_are_founded`,
//! `replies_are_founded`), Pending and Cancelled in a tick too (`answers_have_ticks`); and an event changes one core alone, a
//! client or a replica, by this core, the event and its packet (`events_are_local`).
//!
//! To believe, in this order: `specs/State` is the world; `specs/After` what each event makes of it, a row an event;
//! `specs/Lawful` when it may come, asked of the mail, of its core, and of the rest; `specs/Journal` what a run is, and what its
//! clients see; `specs/Causes` and `specs/Local` the statements of the other laws. Runs worked by hand stand in `specs/Worked`,
//! `WorkedChain`, `WorkedMove`.
//!
//! Only the proof's: `specs/Grouped` and `specs/Chained`. A part's replicas are a Raft group (`raft_group`), whose decided list
//! agrees; parts whose lists are decided so are a world of chains (`chain_world`), whose steps are a graph run. With each run
//! of the world go a run of each part's group and one of the chains, and each event moves them by some events of theirs.
//!
//! Below are `replica_model`, `statement_run` and `meta_parts`, one replica, one client and the table; above is the cluster that
//! shows a world.
#![tactic(auto)]

mod event;
mod laws;

pub use event::{Cause, Event};
pub use laws::{
    answers_are_founded, answers_have_ticks, begins_anew, clients_do_what_is_due, events_are_local,
    journals_tell, replicas_are_groups, replies_are_founded, trace_is_seen, worked_chain,
    worked_move, worked_read, worlds_are_joined, worlds_refine,
};
