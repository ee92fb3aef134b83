//! The table of parts, nodes and moves as a program.
//!
//! What `meta_parts` defines of a table, over the table itself: the one at boot ([`boot`]); whether a body may be written
//! ([`may_write`]), and the table behind it ([`write`]); and what the world asks of it: who gets a packet that goes to a part by a
//! try ([`tried`]), and whether a peer has its place on a node ([`has_peer`]).
//!
//! The contracts are those definitions: each call gives just what `meta_parts/specs/Table` says, and a write that is refused for
//! want of memory leaves the table as it was.
//!
//! Below is `meta_parts`; above will be the cluster that shows a world.
#![tactic(auto)]

mod asking;
mod making;
mod rows;
mod writing;

pub use asking::{has_peer, may_write, tried};
pub use writing::{boot, write};
