//! One replica of a part on one disk: one step, one durable record.
//!
//! A [`Replica`] is a peer, which is a replica without its disk, and the file of the replica. A step is made ahead by
//! [`Replica::reserve`], which takes all of the memory, on the disk too, and changes nothing that is seen; its [`Room`] shows
//! what will leave, so that it can be spelled first. [`Replica::step`] makes the step's record durable, where it has one, then
//! takes the step, and then gives what leaves.
//!
//! The contract, over any `Disk` as far as it tells its file: the step is that of `replica_model` (`stepped`, `gives`); a crash
//! at any moment of it leaves a file with what was durable before, or with that and the step's one record (`any_moment`); and
//! nothing is given before each image has the latter (`acknowledged`). A step without a record leaves the disk alone (`untouched`).
//! `Down` comes only where the disk's count of faults rose in this call, or where it came before (`cause`, `up`); then the file
//! is opened again. `open` gives the fold of the file's records, a follower with commit 0 (`opened`, `found`), or `BadFile`
//! exactly where the file is none of this replica (`cause`), which no file is that these calls made and wrote (`never_bad`).
//! Where all that the replica holds and what came has a spelling, so has each packet that leaves (`spelled`).
//!
//! Reading order: `specs/Replica`; `who`, `room`, `effects`, `replica`. Below are `replica_peer`, `replica_record`,
//! `replica_file` and `replica_spelling`; above is the world of replicas.
#![tactic(auto)]

mod effects;
mod replica;
mod room;
mod who;

pub use effects::{Down, Effects};
pub use replica::{OpenRefused, Replica};
pub use room::Room;
pub use who::Who;
