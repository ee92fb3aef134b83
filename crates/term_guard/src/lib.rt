//! The guard that a part keeps against leaders of other parts: of each other part the greatest term seen.
//!
//! What a leader of another part asks for comes with the leader's term. A part that has seen a term lets nothing of a
//! lower one through: so a fence of a new leader cuts off what an old one sent before, however late it comes.
//!
//! [`Guard::check`] answers `Stale` with the kept term exactly where the term that is asked about is below it, and
//! `Fresh` else. [`Guard::raise`] keeps the greater term. A part has a row in the guard once [`Guard::reserve`] has made
//! it, and the other calls take no memory; a part without a row has the kept term 0.
//!
//! To believe: `specs/Terms`, and the clauses of `src/guard`. Read first `specs/Terms`. Contracts see a guard as a finite
//! map from parts to terms; `proofs/` ties the tree map to it.
//!
//! Below are `lists` and `maps`. Nothing stands on it yet: a part's machine keeps its guards among the pairs of its store.
#![tactic(auto)]

mod guard;
mod laws;
mod verdict;

pub use guard::Guard;
pub use laws::terms_never_fall;
pub use verdict::Verdict;
