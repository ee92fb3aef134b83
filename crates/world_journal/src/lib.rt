//! The journal of the replicated world: its events, and every packet that was sent, as bytes, with which of them were delivered or
//! lost.
//!
//! A [`Journal`] shows the mail of a state of the world (`specs/Shows`) where its packets spell those that were sent, in order, and
//! the marks are the state's. [`Journal::note`] puts an event behind the others, with the packets that it sends; behind an event
//! that is lawful the journal shows the state that the event leaves (`shows`), for each spelling of packets. So what is claimed of
//! packets, that they come, come again and are lost, is `world_model`'s.
//!
//! [`Journal::draw`] gives the lowest packet that was neither delivered nor lost, and [`Journal::is_delivered`] whether there is
//! none, which is the mail's half of a quiet point; neither walks the journal. Memory is taken by [`Journal::reserve`] alone.
//!
//! Below are `world_mail` and `world_model`; above will be the cluster that shows a world.
#![tactic(auto)]

mod events;
mod journal;

pub use events::Events;
pub use journal::Journal;
