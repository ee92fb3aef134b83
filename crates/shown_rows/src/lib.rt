//! What YIELD shows of what reads found, and what WHERE keeps of it.
//!
//! A bound statement (`schema_book`) says by numbers what is shown and what has to hold. [`fetched_rows`] makes the rows of a
//! FETCH of what its reads found, in the order in which they are written, and [`walked_rows`] those of a GO of what the last step
//! of its walk found: each edge that WHERE keeps is a row, in the order in which they were found.
//!
//! **Claimed.** The rows are just those that the definitions `fetched_rows` and `walked_rows` say, but for want of memory. A
//! condition means what it says as a tree ([`laws::conditions_mean_their_trees`]), whatever order of its steps a stack needs;
//! what each relation says of each pair of kinds is worked by hand ([`laws::relations_by_hand`]).
//!
//! **To read, and believe**, in this order: `specs/Values` (what is looked at: its value, and null where there is none),
//! `Comparisons` (which values meet a relation), `Conditions` (a condition as a tree, and over a stack of answers), `Rows`.
//!
//! Below are bound statements and the schema (`schema_book`) and what a read finds (`graph_model`); above are the statements
//! that a client runs.
#![tactic(auto)]

mod answers;
mod comparisons;
mod conditions;
pub mod laws;
mod shown;
mod values;

pub use shown::{Table, fetched_rows, walked_rows};
