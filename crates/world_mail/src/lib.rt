//! The mail of the replicated world: every packet that was ever sent, as bytes, and of each whether it was delivered or lost.
//!
//! Packets are numbered from 0, in the order in which they were sent. None is ever taken out: one that was delivered may come
//! again. An event's packets are made ahead as [`Packets`] and moved in whole, a block an event, by [`Mail::send`]; they are
//! copied nowhere. [`Mail::lowest`] gives the packet that is drawn next, the lowest that was neither delivered nor lost, without
//! a walk; [`Mail::sent`] finds a packet by halves.
//!
//! The contract: a mail is the list of its packets (`specs/Sent`), with the number of blocks for which there is room. `send`
//! puts fresh packets behind the others, `mark` ends one and leaves the rest, and `lowest` is the lowest that isn't done; memory
//! is taken by `reserve` alone, which changes no packet. `specs/Blocks` has how the packets are kept.
//!
//! Below is `lists`; above will be the journal of the replicated world.
#![tactic(auto)]

mod block;
mod mail;
mod packets;

pub use mail::Mail;
pub use packets::{Packets, Sent};
