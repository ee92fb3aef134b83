//! The tests that cross crates.
//!
//! They stand in one crate at the top, since a crate with tests is proved twice. What a contract says needs no test: here
//! stand keys, entries and the part file by worked bytes, damaged ones too, and the file in memory and on a real disk. A body
//! that always gives up for want of memory meets its contract, and is refused here alone.
#![tactic(auto)]

#[cfg(test)]
mod entries;
#[cfg(test)]
mod hex;
#[cfg(test)]
mod keys;
#[cfg(test)]
mod part_file;
