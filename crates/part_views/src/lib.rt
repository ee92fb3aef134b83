//! What a query finds in a part, read from the part's store.
//!
//! A part's rows and halves are pairs of its store. Those of a vertex's edges, leaving and entering, have keys with one
//! beginning, so a query about them reads the pairs under it, in the order of their keys, which is the order of a view; a
//! query about a tag or an edge reads one pair. Nothing else of the part is looked at.
//!
//! The contract of `view`: over any store that keeps a part's state, what is shown is what the query finds in that state.
//!
//! Reading order: `specs/Reading` (which fact a pair is), `specs/Views` (what is read for a query); both serve the contract
//! alone, which speaks of `part_rules::specs/View`.
//!
//! Below is `part_store`, with the tie between a state and its store; above is a part's machine.
#![tactic(auto)]

mod pairs;
mod queries;
mod values;

pub use queries::view;
