//! The tests of the first path; the replicated program will take its place.
//!
//! What a contract says needs no test: here stand whole scripts with their printed answers, over a source and a sink
//! in memory that move odd pieces or fail; one run of the graph machine as a program; and each of its misfits once. A
//! body that always gives up for want of memory meets its contract, and is refused here alone.
#![tactic(auto)]

#[cfg(test)]
mod graph_steps;
#[cfg(test)]
mod scripts;
