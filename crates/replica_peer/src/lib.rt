//! One replica of a part as a program, without its disk: its Raft peer, what it keeps as a leader, and the machine of its part.
//!
//! A [`Peer`] is seen as the `Replica` of `replica_model` (`replica_of` in `specs/Peer`), and its calls are that one's step
//! (`stepped`), in two halves: `plan` makes all that a step needs memory for, and changes nothing that is seen; `take` then takes
//! the step, which needs no memory and can't fail. What was made is a [`Room`] (`IsRoomFor` in `specs/Room`): it tells the record
//! that has to be durable before anything leaves, and what leaves.
//!
//! Reading order: `peer`, `room`, `next` (what becomes of a peer), `taking` with `applying` and `hints`; `planning`, which tells the
//! steps apart by what is asked, with `arms` (steps that leave the Raft peer as it is), `refusing` and `raft_ahead` (a step of the Raft
//! peer: `onward`, `placing`, `worked`, `stages`, `leaving`).
//! Below are `replica_state`, a replica beside its machine, `part_machine`, and `replica_record`, by which the log behind a step
//! holds entries of the part alone; above is a replica with its disk.
#![tactic(auto)]

mod applying;
mod arms;
mod hints;
mod leaving;
mod next;
mod onward;
mod peer;
mod placing;
mod planning;
mod raft_ahead;
mod refusing;
mod room;
mod stages;
mod taking;
mod worked;

pub use peer::Peer;
pub use replica_state::{Leaves, Leaving};
pub use room::Room;
