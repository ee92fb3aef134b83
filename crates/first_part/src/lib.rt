//! One part of the store of the first path; the replicated program will take its place.
//!
//! The machine applies the part's decided entries in order. It keeps the out-halves of the edges whose source the
//! part holds, the in-halves of the edges whose destination it holds, the chains under way (primes), and of each
//! client the last number with its outcome. A [`PartEntry`] is what a part decides; it changes this state and has an
//! answer, by a table that `specs/Part` states entry by entry: a Prime begins a chain, is skipped, conflicts, or is
//! answered from what was kept; a Remote writes an in-half unless a later chain wrote it before; a Local writes the
//! out-half and ends the chain; a Read shows what a query finds here. The other entries, which no replica of the
//! first path makes, change nothing.
//!
//! The contract: `Machine::apply` leaves exactly the state and gives exactly the answer of the table, or is refused
//! for want of memory and changes nothing; `Machine::view` shows exactly what the query finds in the part; `part_of`
//! is the part of a vertex (`specs/Routing`).
//!
//! Below are the values and keys of `first_graph`; above is the world of parts, packets and clients
//! (`nebstore_app`).
#![tactic(auto)]

mod applied;
mod clients;
mod edge_map;
mod entry;
mod finding;
mod in_halves;
mod machine;
mod part;
mod prime;

pub use applied::Applied;
pub use clients::{Kept, Outcome};
pub use entry::PartEntry;
pub use in_halves::InHalf;
pub use machine::Machine;
pub use part::part_of;
pub use prime::PrimeRec;
