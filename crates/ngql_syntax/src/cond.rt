//! Conditions.
use crate::expr::RawExpr;
use crate::lit::Lit;
use lists::Listed;

/// A comparison.
#[derive(Clone, Copy)]
pub enum Rel {
    /// `==`
    Eq,
    /// `!=`
    Ne,
    /// `<`
    Lt,
    /// `<=`
    Le,
    /// `>`
    Gt,
    /// `>=`
    Ge,
}

/// A step of a condition, over a stack of answers.
#[derive(Drop)]
pub enum RawStep {
    /// Puts the answer of a comparison.
    Test(RawExpr, Rel, Lit),
    /// Takes an answer and puts the other one.
    Not,
    /// Takes two answers and puts whether both are true.
    And,
    /// Takes two answers and puts whether one of them is true.
    Or,
}

/// A condition: its steps, which leave one answer.
pub type RawCond = Listed<RawStep>;
