//! Walks over edges: which vertex is read next, and what the last step found.
//!
//! A walk of some steps begins at a set of vertices, its frontier. Each vertex of the frontier is one read of the graph, by
//! rising id. Behind each step before the last, the frontier becomes the set of the other ends of all edges that the step's
//! reads found; where these are more than 4,096, the walk is too wide and has ended. What the reads of the last step found is
//! what the walk gives.
//!
//! The contract: [`Walk`] goes exactly as `specs/Trail` says, a read at a time, over the sets of `specs/Sets`, and behind want of
//! memory a walk is as it was. Whatever its reads find, it gives what the walk over sets of `specs/OverSets` gives
//! ([`laws::walks_go_over_sets`]). `Sets` and `OverSets` a reader has to believe.
//!
//! Below is the graph's values (crate `graph_model`) and the ways of a walk (crate `ngql_syntax`); above are the statements
//! that a client runs.
#![tactic(auto)]

mod ends;
pub mod laws;
mod refused;
mod walk;

pub use refused::WalkRefused;
pub use walk::{MOST_ENDS, Views, Walk};
