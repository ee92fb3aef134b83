//! The step of one replica: its Raft step, the machine of its part, and, where it leads, the rules of chains.
//!
//! A step takes a packet or a tick. Read `specs/Replica` first, the state, and what is derived from it: what a replica has
//! applied is no part of it, but what its committed entries spell. `specs/Asks` sorts what came, once: it is nothing to the
//! replica, it is turned away with a NotLeader, it is a hint, it concerns the leader's rules alone, or it is an input of the
//! Raft step, perhaps with an entry to propose or a read to answer once its round is confirmed. `specs/Letters` gives the
//! rules' letters their receivers. `specs/Stepped` is the step: the state behind it, at most one record, and the packets, in
//! their order, each with the round of the read that it answers. All of it is a function of the replica and what came: no
//! moment of the world is in it.
//!
//! Claimed, in `laws`: what a step promised its one record holds; a read is answered only behind its round, and what tells a
//! view is the answer of a read that waited, with that read's round, or has a round that this step began; a leader that no
//! longer leads, or whose configuration changed, keeps no read; no hint outlives the next Remote or Fence of its chain, nor its
//! chain in the table. To be believed are the files of specs named here; `specs/Laws` and `specs/Worked` are what is proved of
//! them.
//!
//! Below are `raft_core`, one peer's Raft step, and `chain_leader`, what a leader does; above is `world_model`.
#![tactic(auto)]

mod input;
mod laws;
mod packet;

pub use input::{Input, Tick};
pub use laws::{
    bytes_are_a_spelling, from_no_client, hints_go, one_record, reads_wait, rows_are_dropped,
    worked_asks,
};
pub use packet::{Body, Packet, Place, To};
