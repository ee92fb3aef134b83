//! The tests of a leader's chain rules and of chains over a schedule, as tables that a person reads.
//!
//! What a rule answers and leaves is proved; here stand the same rules as a reader of the scheme would write them down, one
//! line a case, for each row that a chain may have: what is answered, and the row after (`rules`). They also show that the calls
//! succeed where there is memory. `cases` has the names in which the tables speak. `worlds` has lists of chain events, and the
//! graph steps that they amount to, in the words of `words`.
//!
//! Below are `chain_leader` and `chain_run`.
#![tactic(auto)]

#[cfg(test)]
mod cases;
#[cfg(test)]
mod rules;
#[cfg(test)]
mod words;
#[cfg(test)]
mod worlds;
