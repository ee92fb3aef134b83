//! What leaves a replica has a spelling.
//!
//! A replica's packets are written down with `packet_codec`, which takes what has a spelling: what the types of the numbers don't
//! say already. That each packet of each step has one is a law of the definitions ([`leaves_are_spelled`]): messages carry at
//! most 64 entries, whose configurations are ones; letters carry the lists of chains, which came from entries that fit; an answer
//! tells rows and edges that the part holds; and all ends are clients and parts from 1 to 64.
//!
//! What a replica has to hold for that is `IsSpelled` (`specs/Spelled`), and so of its part `IsSpelledPart` (`specs/Parts`): it holds
//! of a replica that has just come up with a log whose entries fit, so of one that is created and of one that comes up again
//! ([`replicas_come_up_spelled`]), and each step keeps it. Of what comes it asks no more than that a packet has a spelling and that
//! the entries of an Append fit, as those do whose payloads are bytes ([`bytes_fit`]), and so each packet that was read of bytes
//! ([`read_packets_are_spelled`]).
//!
//! Below are `replica_model`, `replica_state` and `packet_codec`; above is `replica_core`.
#![tactic(auto)]

mod laws;

pub use laws::{
    bytes_fit, leaves_are_spelled, parts_are_spelled, read_packets_are_spelled,
    replicas_come_up_spelled,
};
