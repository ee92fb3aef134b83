//! The tokens of a line of the query language.
//!
//! A line is a run of blanks and tokens: keywords, names, whole numbers, texts in quotes, and marks. Each token is the
//! longest one that begins at its place, so `->` is one mark and `1->2` has three tokens. Keywords take any case; a
//! word in backquotes is a name whatever it says. A text is UTF-8 and ends at its own quote; behind a backslash stand
//! a quote, a backslash, `n` or `t`. A CR at the end of the line is dropped.
//!
//! The contract: [`lex`] gives the tokens of the line, in order and with their places, exactly where the line has
//! tokens, and else `BadToken` with the place of the first byte that begins none. Which token stands at the front of
//! some bytes is `specs/Front`; what the tokens of a line are, and where its misfit is, is `specs/Lines`: these two a
//! reader has to believe.
//!
//! Below are lists (crate `lists`); above is the parser.
#![tactic(auto)]

mod bytes;
mod front;
mod keyword;
mod lexer;
mod refused;
mod text;
mod token;

pub use front::Front;
pub use lexer::{lex, without_cr};
pub use refused::LexRefused;
pub use text::Ending;
pub use token::{Token, TokenKind, Tokens};
