//! One part of the store, as the machine that applies the part's decided entries in order.
//!
//! A part keeps the rows of its vertices' tags, the out-halves of the edges whose source it holds, the in-halves of the
//! edges whose destination it holds, each with the number of the chain that wrote it, the chains that stand, a guard for
//! each other part, and of each client the last number with its outcome. An entry changes this state and has an answer;
//! the answer doesn't tell whether a Remote wrote anything: `writes` does.
//!
//! Reading order: `specs/Part` has the state, `specs/Machine` the table, one definition an entry, in its order (`applied`),
//! `specs/Folded` the state behind a decided list, `specs/View` what a query finds and which chains stand. These are to be
//! believed. What is claimed of them, of every decided list:
//! - at most one chain stands on an edge, and each is the one that its Prime began (`one_chain_an_edge`, `named_by_prime`);
//! - kept numbers, guards and clients' numbers never fall, and behind a Remote or a Fence each lower term is stale for good
//!   (`never_fall`, `numbers_of_clients_rise`, `lower_terms_are_stale`);
//! - the last chain on its edges has all its in-halves written or none (`whole_or_none`, `halves_together`), and a removal
//!   leaves a marker with its number (`removals_leave_marks`);
//! - a call is new once (`new_once`), and a chain goes from its part to one remote part (`primes_route`).
//! `worked_chains` has chains of two edges worked by hand; all of `proofs/` is the proof's alone.
//!
//! Below are the entries (`part_keys`) and the values and keys of `graph_model`; above are the leader's rules
//! (`chain_leader`).
#![tactic(auto)]

mod applied;
mod fold_laws;
mod kept;
mod laws;

pub use applied::Applied;
pub use fold_laws::{
    lower_terms_are_stale, named_by_prime, never_fall, one_chain_an_edge, whole_or_none,
};
pub use kept::{Kept, Outcome};
pub use laws::{
    halves_together, new_once, numbers_of_clients_rise, primes_route, removals_leave_marks,
    worked_chains,
};
