//! Tests of packets as their bytes.
//!
//! A crate of its own, since a crate with tests is proved twice. That a packet has one spelling, which is read back, is proved;
//! here stand, by hand, the bytes of one packet of each kind, the places at which damaged ones are refused, and one that is
//! written (`packets`). They also show that the calls succeed where there is memory. `hex` reads digits as bytes.
//!
//! Below is `packet_codec`; nothing is above.
#![tactic(auto)]

#[cfg(test)]
mod hex;
#[cfg(test)]
mod packets;
