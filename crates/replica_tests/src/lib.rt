//! The tests of replicas on their disks: what no contract says, that the calls succeed where there is memory, and one run of
//! three replicas.
//!
//! `net` has three replicas of one part in memory and the packets between them. `runs` has a chain of two edges and a read, a
//! leader that is opened again in the middle of a chain, and a deposed leader whose read is never answered; `faults` a disk
//! that stops at each call of one step.
//!
//! Below is `replica_core`.
#![tactic(auto)]

#[cfg(test)]
mod asking;
#[cfg(test)]
mod faults;
#[cfg(test)]
mod hearing;
#[cfg(test)]
mod net;
#[cfg(test)]
mod node;
#[cfg(test)]
mod runs;
