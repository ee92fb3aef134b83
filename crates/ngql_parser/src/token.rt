//! Tokens as the grammar sees them.
use crate::kind::Kind;
use lists::Text;

/// A token as the grammar sees it.
#[derive(Drop)]
pub struct Token {
    /// What it is.
    pub kind: Kind,
    /// Its value, where it is a whole number that fits, and else 0.
    pub number: i64,
    /// The name or the text that it spells, and else nothing.
    pub text: Text,
    /// The place of its first byte in the line, from 1.
    pub at: u32,
}
