//! The graph machine of the first path: what a graph store has to be seen as. The replicated program will take its
//! place, with the crate `graph_model`.
//!
//! A graph has the rows of its vertices' tags and, for each edge, an out-half (kept with the edge's source) and an
//! in-half (kept with its destination). A client's call on an edge is a chain: it begins, writes both halves, and
//! settles or is cancelled; a call on a vertex is one step; a read is answered from the graph at one moment between
//! its invocation and its answer. The machine has no parts and no packets: the store above has them, and is proved to
//! give only runs of this machine.
//!
//! `specs/` has the definitions: `Contents` (rows and halves), `Views` (what a query finds), `Machine` (the state
//! and the eleven steps, each with the first condition that may fail), `Run` (runs and their traces), `Laws` (what
//! holds of every run), `Ranges` (where the keys of one vertex lie). The module `laws` proves these laws, each as the
//! contract of a function with no body. `Graph` is the machine as a plain program.
//!
//! Below are the lists of crate `lists`; above are the other crates of the first path.
#![tactic(auto)]

mod answer;
mod book;
mod call;
mod call_id;
mod chain;
mod chains;
mod change;
mod edge_id;
mod finding;
mod found;
mod graph;
mod graph_step;
mod half;
mod in_key;
pub mod laws;
mod misfit;
mod op;
mod query;
mod ranges;
mod shelf;
mod tag_key;
mod tags;
mod types;
mod val;

pub use answer::Answer;
pub use call_id::CallId;
pub use edge_id::{EdgeId, Vid};
pub use finding::{push_found, push_out};
pub use found::{Found, View};
pub use graph::Graph;
pub use graph_step::GStep;
pub use half::Half;
pub use in_key::InKey;
pub use misfit::{Misfit, StepRefused};
pub use op::Op;
pub use query::Query;
pub use ranges::{edges_of, in_edges_of};
pub use tag_key::TagKey;
pub use types::Types;
pub use val::{Row, Val};
