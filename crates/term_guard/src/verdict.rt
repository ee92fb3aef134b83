//! What a guard says of a term.

/// Whether a term may act.
#[derive(Clone, Copy)]
pub enum Verdict {
    /// No greater term was seen.
    Fresh,
    /// This greater term was seen.
    Stale(u64),
}
