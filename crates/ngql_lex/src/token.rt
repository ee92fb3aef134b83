//! Tokens with their places.
use lists::Listed;

/// What kind of token it is.
#[derive(Debug, Clone, Copy)]
pub enum TokenKind {
    /// A word that no plain name may be, in any case.
    Keyword,
    /// Any other word, or a word in backquotes.
    Name,
    /// A whole number in decimal digits, with a `-` directly before them where it is negative.
    Int,
    /// A text in single or double quotes.
    Words,
    /// Any other mark.
    Mark,
}

/// A token and where it stands.
#[derive(Debug, Clone, Copy)]
pub struct Token {
    /// What kind of token it is.
    pub kind: TokenKind,
    /// How many bytes of the line stand before it.
    pub from: u32,
    /// How many bytes of the line stand before its end.
    pub upto: u32,
}

/// The tokens of a line, in order.
pub type Tokens = Listed<Token>;
