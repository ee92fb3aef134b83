//! Tests of the Raft crates: case tables that a person reads, and lists of events of a group.
//!
//! The contracts say that a peer's step is the step of the definition, and that a group's run is its run; here stands that
//! the definition is the one meant. Each expected value comes from the rules by hand: who wins an election, who grants a
//! vote, what an Append makes of a log, what commits and what is confirmed, which change is permitted; and what a group
//! of three or five peers has decided behind lists of events in which leaders crash, messages come late or twice, and
//! members come and go. They also show that the calls succeed, which no contract can. The rows of `permit` stand worked by
//! hand as a law too, `member_change::worked_rows`.
#![tactic(auto)]

#[cfg(test)]
mod appending;
#[cfg(test)]
mod changing;
#[cfg(test)]
mod counting;
#[cfg(test)]
mod electing;
#[cfg(test)]
mod fixtures;
#[cfg(test)]
mod groups;
#[cfg(test)]
mod script;
