//! What GO walks.
use crate::cond::RawCond;
use crate::expr::RawExprs;
use crate::lit::Lits;
use crate::spanned::Names;

/// Which way edges are walked.
#[derive(Clone, Copy)]
pub enum Way {
    /// From source to destination.
    Outward,
    /// REVERSELY: from destination to source.
    Inward,
    /// BIDIRECT: either way.
    Both,
}

/// What GO walks, and what it shows.
#[derive(Drop)]
pub struct GoWords {
    /// The number of steps, 0 to 8; 1 where none is written.
    pub steps: u32,
    /// The ids from which it starts.
    pub start: Lits,
    /// The edge types; none for `*`.
    pub over: Option<Names>,
    /// Which way.
    pub way: Way,
    /// The condition behind WHERE.
    pub keep: Option<RawCond>,
    /// What is shown.
    pub shown: RawExprs,
}
