//! One change of the chains that stand.
use part_keys::PrimeRec;

/// A change of the chains that stand: at this number this chain stands from now on, or none.
#[derive(Drop)]
pub struct Turn {
    /// The chain's number.
    pub at: u64,
    /// The chain.
    pub chain: Option<PrimeRec>,
}
