//! Tests of a part's store, over the bytes that the formats give by hand.
//!
//! `stored.rt` has the pairs of a store behind two edges, while a chain stands on them and once it has ended.
//!
//! Below are `part_store` and what it stands on; nothing is above.
#![tactic(auto)]

#[cfg(test)]
mod stored;
