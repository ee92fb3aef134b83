//! The graph machine as a program, by a run that a person reads.
//!
//! A crate of its own, since a crate with tests is proved twice. What a contract says needs no test: here each of the
//! eleven steps is taken once, each misfit comes once, and each kind of query shows its rows, in their order; each op and
//! each query is a copy of one. A body that always gives up for want of memory meets its contract, and is refused here alone.
//!
//! `lines` has the words of the run, `steps` what is taken and refused, `views` what is seen meanwhile and at the end.
//! Below is the crate `graph_model`; nothing is above.
#![tactic(auto)]

#[cfg(test)]
mod lines;
#[cfg(test)]
mod steps;
#[cfg(test)]
mod views;
