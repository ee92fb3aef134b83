//! What a part's log is made of, and which part an id routes to.
//!
//! The space is cut into parts. An edge's out-half is kept by the part of its source, its in-half by the part of its
//! destination, and a tag by the part of its vertex. A part decides entries, one after another: a Prime begins the
//! chain of a client's edges, a Remote writes their in-halves in the other part, and a Local, or a Double and a Close,
//! write the out-halves; a Fence asks the other part whether it has a chain's Remote, and an Abort gives the chain up.
//!
//! `specs/Routing` has the part of an id and of an entry. Beside the entries stand the records that a part and its
//! leader keep of a chain.
//!
//! [`write_entry`] gives an entry's bytes in one of two versions, [`read_entry`] reads them. An entry has one spelling in
//! each (`specs/Spelling`), no spelling begins another, and what is no entry's spelling is refused at the first field that
//! doesn't fit (`specs/Reading`).
//!
//! Below are the bytes of `graph_bytes`, the values and calls of `graph_model`, and the configurations of `raft_log`; above is `part_rules`.
#![tactic(auto)]

mod chain;
mod entries;
mod entry;
mod entry_kinds;
mod in_half;
mod key;
mod key_bytes;
mod keys;
mod kinds;
mod laws;
mod part;
mod proposal;
mod reading_keys;
mod refused;
mod room;
mod routing;
mod vid_kind;

pub use chain::{ChainMsg, ChainState, Mode, Policy, PrimeRec};
pub use entries::{one_spelling, put_entry, read_entry, read_entry_front, write_entry};
pub use entry::PartEntry;
pub use in_half::InHalf;
pub use key::Key;
pub use key_bytes::KeyBytes;
pub use keys::{in_key, out_key, tag_key};
pub use kinds::{is_entry_of, is_id_of};
pub use laws::{order_of_keys, worked_parts};
pub use part::part_of;
pub use proposal::Proposal;
pub use reading_keys::read_key;
pub use refused::EntryRefused;
pub use room::{edges_room, entry_room, halves_room};
pub use routing::{belongs, is_payload, part_of_query};
pub use vid_kind::VidKind;
