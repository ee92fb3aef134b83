//! One part's machine over a tree, by a run that a person reads.
//!
//! A crate of its own, since a crate with tests is proved twice. What a contract says needs no test: here each entry comes
//! with each of its answers once, among them a late Remote and IF NOT EXISTS over two edges, and what stands at the end is
//! looked at. A body that always gives up for want of memory meets its contract, and is refused here alone.
//!
//! `lines` has the words of the run, `run` the lines with their answers, `guards` the rows of a guard. Below are
//! the crates `part_machine` and `term_guard`; nothing is above.
#![tactic(auto)]

#[cfg(test)]
mod guards;
#[cfg(test)]
mod lines;
#[cfg(test)]
mod run;
