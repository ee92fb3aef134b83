//! The graph machine: what a replicated graph store has to be seen as.
//!
//! A graph has the rows of its vertices' tags and, for each edge, an out-half (kept with the edge's source) and an
//! in-half (kept with its destination). A client's call on edges is a chain: it begins, writes all in-halves and all
//! out-halves of its edges, and settles or is cancelled; a call on a vertex is one step; a read is answered from the
//! graph at one moment between its invocation and its answer. The machine has no terms, logs, parts or replicas: the
//! store above has all of them, and is proved to give only runs of this machine.
//!
//! **Claimed.** In every run of the machine (`laws`): an edge in no pending call has equal halves; a call is moved once and
//! answered once; what was acknowledged is never cancelled; what was answered Fine is seen by every later read until
//! another call takes it; the halves of a chain change together; no call is stuck. `Graph` is the machine as a program:
//! `step` takes exactly the step of the table or names the first condition that fails, and `view` shows exactly what a query
//! finds.
//!
//! **To read, and believe**, in this order: `specs/Contents` (rows and halves), `Views` (what a query finds), `State`,
//! `Lookups` (what the table's words mean), `Steps` (the table of the eleven steps, each with its conditions and its effect),
//! `Run`, `Laws` and `Visible`; `Edges`, `Names` and `Types` say what the types of a call keep. `Worked` has runs by hand.
//! All of `proofs/`, with `specs/After`, `Changes`, `Marks` and `Alike`, serves the proofs alone.
//!
//! Below are the crates `lists` and `maps`; above is every crate that speaks of values, calls or answers.
#![tactic(auto)]

mod answer;
mod book;
mod call;
mod call_id;
mod chain;
mod chains;
mod change;
mod edge_halves;
mod edge_id;
mod edge_rows;
mod edges;
mod finding;
mod found;
mod graph;
mod graph_step;
mod half;
mod in_key;
mod in_places;
pub mod laws;
mod mark;
mod marks;
mod misfit;
mod name;
mod op;
mod out_places;
mod query;
mod ranges;
mod shelf;
mod tag_key;
mod tags;
mod track;
mod types;
mod val;
mod vid;

pub use answer::Answer;
pub use call::{Call, CallState};
pub use call_id::CallId;
pub use chain::Chain;
pub use change::Change;
pub use edge_halves::EdgeHalves;
pub use edge_id::EdgeId;
pub use edge_rows::EdgeRows;
pub use edges::{Edges, MOST_EDGES, are_edges};
pub use found::{Found, View};
pub use graph::Graph;
pub use graph_step::GStep;
pub use half::{Half, Halves};
pub use in_key::InKey;
pub use misfit::{Misfit, StepRefused};
pub use name::Name;
pub use op::Op;
pub use query::Query;
pub use tag_key::TagKey;
pub use types::{MOST_TYPES, Types};
pub use val::{Row, Val};
pub use vid::Vid;
