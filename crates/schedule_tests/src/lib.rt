//! The tests of the lines of a script that make faults: what a seed draws, worked by a generator that was written apart
//! from this one, and some lines that are read, or aren't.
//!
//! They also show that `schedule` succeeds where there is memory. Below is `fault_schedule`.
#![tactic(auto)]

#[cfg(test)]
mod drawn;
#[cfg(test)]
mod lines;
