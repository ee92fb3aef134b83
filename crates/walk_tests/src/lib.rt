//! The tests of walks: which vertices are read, step by step.
//!
//! That a walk goes as its definition says is proved; here one is walked by hand, which also shows that its calls succeed
//! where there is memory. Below is `traversal`.
#![tactic(auto)]

#[cfg(test)]
mod steps;
