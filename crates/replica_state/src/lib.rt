//! What a replica is, beside its part's machine: its state as a program keeps it, and what an input asks of it.
//!
//! A [`ReplicaState`] is seen as the `Replica` of `replica_model` (`replica_of` in `specs/State`), whose definitions the calls equal:
//! `open` gives the replica that comes up with what is durable; `asks` sorts what came, once, and says what it asks: nothing, a
//! NotLeader for its sender, a hint, the leader's rules alone, a step of the Raft peer with an entry to propose, or a round for a
//! read (`specs/Asked`). It changes nothing: the rules of a leader are asked what they would propose, and nothing is taken.
//!
//! What leaves of a step stands in `posting`, part by part: a NotLeader (`refusal`), the messages of the Raft peer (`messages`),
//! a leader's letters with their receivers (`post`, `post_all`), and the answers of the reads whose round is confirmed
//! (`answers`, with that of the read that begins its round `answers_with`), which are then let go (`let_go`). What a step is
//! told, and what stands behind one that was made ahead, stands in `told`; what newly committed entries are, `values` gives;
//! hints and senders stand in places that are made ahead (`hold`, `fill`, `wipe`).
//!
//! Reading order: `state`, `asked`, `asks` with `offer` (what the rules propose) and `entries` (what the items of a log are),
//! `places`, `leaving`, `posting`, `waiting`, `told`.
//! Below are `replica_model`, `raft_core` and `chain_leader`; above is a replica with its machine and its disk.
#![tactic(auto)]

mod asked;
mod asks;
mod entries;
mod leaving;
mod offer;
mod places;
mod posting;
mod state;
mod told;
mod waiting;
mod whose;

pub use asked::{Asked, Rule};
pub use entries::{are_entries, values};
pub use leaving::{Leaves, Leaving};
pub use places::{Places, at, fill, hold, wipe};
pub use posting::{Writer, answers, answers_with, chain_of, messages, post, post_all};
pub use state::ReplicaState;
pub use told::{Told, keeps_rows, last_behind, leads_on, told_in};
pub use waiting::{WaitingRead, let_go};
pub use whose::Whose;
