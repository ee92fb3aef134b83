//! A chain under way.
use crate::half::Halves;

/// The chain of a call, under way: it brings both halves of each of its edges to one new value.
#[derive(Drop)]
pub struct Chain {
    /// The edges that it took, each with the new value of its halves.
    pub list: Halves,
    /// Whether the in-halves have them.
    pub in_done: bool,
    /// Whether the out-halves have them.
    pub out_done: bool,
}
