//! One part's machine as a program, over any store of keys.
//!
//! A [`Machine`] shows a state of its part (`IsMachine` in `specs/Machine`): its store keeps the rows, the in-halves with
//! their numbers, the guards, the clients' last calls and the chains' edges, pair by pair; beside it stands an index of the
//! chains by number. Its calls, each said of every state that it shows:
//! - `new` is the machine of a part before its first entry;
//! - `reserve` makes a plan for each of a list of placed entries; the state stays, and after want of memory nothing is
//!   reserved;
//! - `apply` takes the first entry that is reserved: the state behind it and the answer are those of the table
//!   (`applied` of `part_rules`), and it takes no memory;
//! - `answer` and `begun` tell of a reserved entry what it will be answered and which chain begins with it;
//! - `view` finds what the query finds in the state, `primes` gives the first chains behind a number, `more_primes` tells
//!   whether there are more, and `stands` whether a chain stands.
//!
//! A plan is what an entry writes, the turn of the index, and the answer. Reading order: `planning` with one file a
//! kind of entry (`priming`, `ending`, `remoting`, `vertices`; `calls` and `edges` serve them), `chains` (the index), `playing`
//! with `undoing` (how a list is planned), `machine`, `ahead`. Which entries are taken stands in `specs/Taken`; what a part's log may
//! hold is taken (`payloads_are_taken`), and a read that belongs to the part is answered (`reads_are_asked`).
//!
//! Below are `part_store` and `part_views`, and the table of `part_rules`; above is a replica.
#![tactic(auto)]

mod ahead;
mod back;
mod calls;
mod chains;
mod edges;
mod ending;
mod laws;
mod machine;
mod plan;
mod planning;
mod playing;
mod primes;
mod priming;
mod remoting;
mod turn;
mod undoing;
mod vertices;

pub use laws::{payloads_are_taken, reads_are_asked};
pub use machine::{Machine, PlacedEntries};
pub use part_rules::{Applied, Kept, Outcome};
pub use primes::Primes;
