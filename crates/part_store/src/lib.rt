//! A part's state, kept in a store of keys.
//!
//! A part's machine decides by its state (`part_rules`): tags, out-halves, in-halves with their kept numbers, the chains
//! that stand, guards, and each client's last call. What runs is a store of bytes (`kv_part`). This crate ties the two:
//! `specs/Facts` says what the state has at each key, and a store `Keeps` a state (`specs/Keeps`) where each of its pairs is
//! exactly one fact of the state, and each fact has its pair. Each edge of a chain has its own key.
//!
//! The contract has three parts. What is read at a key, without memory ([`has_tag`], [`has_out`], [`number_at`],
//! [`chain_at`], [`guard_at`], [`last_at`]), is what the state has; with memory [`tags_at`] reads tags of a vertex, among them
//! each one that the state has ([`reads_are_the_state`]).
//! What is pushed onto a batch for a change ([`push_outs`], [`push_ins`], [`push_chains`], [`push_no_chains`],
//! [`push_tag`], [`push_no_tags`], [`push_guard`], [`push_client`]) makes the store keep the changed state
//! ([`writes_keep_up`]). Given its chains, a store keeps one state alone, and the empty store keeps the one before the first
//! entry ([`one_state_kept`]).
//!
//! Reading order: `setting.rt`, `specs/Values`, `specs/Facts`, `specs/Keeps`, then `reads.rt` with `specs/Reads`,
//! `writes.rt` and `list_writes.rt` with `specs/Writes`, `specs/Laws`. All of `proofs/` is the proof's alone.
//!
//! Below are the state and its table (`part_rules`), the keys (`part_keys`), the bytes of values (`graph_bytes`) and the
//! store (`kv_part`); above are a part's machine and its views.
#![tactic(auto)]

mod keys;
mod laws;
mod list_writes;
mod reads;
mod setting;
mod tags;
mod values;
mod writes;

pub use laws::{one_state_kept, reads_are_the_state, writes_keep_up};
pub use list_writes::{push_chains, push_ins, push_no_chains, push_no_tags, push_outs};
pub use reads::{chain_at, guard_at, has_out, has_tag, last_at, number_at};
pub use setting::Setting;
pub use tags::tags_at;
pub use writes::{push_client, push_guard, push_tag};
