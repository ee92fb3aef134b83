//! Statements of the query language, from the bytes of a line.
//!
//! The contract: [`parse`] answers a line exactly where its bytes spell it (`ok`, `only`), and else says where its first misfit
//! stands (`misfit`): the tokens before it begin some line of the grammar, and with the token at it they begin none. A number that is
//! too wide, an option that isn't allowed, and too many of something are misfits of the limits: with the limits lifted, lines
//! would go on so.
//!
//! To read, and believe: `specs/Kinds`, `Words`, `Numbers`, `Texts` and `Tokens` (what each token is to the grammar, by its bytes and by
//! what stands around it), `Rules` (the grammar, rule by rule in the order of the printed one, each with the value that it makes) and
//! `Promise` (what is promised). What a grammar spells, and what a first misfit is, stands in the crate `grammar`. Each `read_` function
//! answers what reading by its rule gives (`specs/Gives`); that this is what the rule spells is that crate's theorem, and the test that
//! one token of lookahead tells what comes is computed (`proofs/Checked`).
//!
//! Conditions are read by a loop over the brackets that are open (`cond`), so no depth of brackets takes a stack of calls;
//! `specs/Conds` says, by the rules, what is still to be read from where the loop stands.
//!
//! Laws: a line of the same words as another, with keywords in another case and other blanks, says the same but for places, or has its first
//! misfit at the same token ([`same_words_say_the_same`], `specs/Alike`, `Places`); a `;` at the end of what is spelled changes nothing
//! ([`semicolon_changes_nothing`], of tokens); the tokens of each statement in its plain form, and of each condition, spell it
//! ([`plain_is_read`], `specs/Plain`, `PlainDefines`, `PlainReads`); and so do its bytes, with a blank behind each token, so that what is
//! printed is read back ([`printed_is_read`], `specs/PlainBytes`).
//!
//! Below are the tokens of `ngql_lex` and the statements of `ngql_syntax`; above is the schema book, which binds them.
#![tactic(auto)]

mod cond;
mod create;
mod delete;
mod edges;
mod exprs;
mod fetch;
mod go;
mod insert;
mod kind;
mod laws;
mod leaves;
mod level;
mod list;
mod names;
mod number;
mod option;
mod parse_refused;
mod placed;
mod refusal;
mod seen;
mod statement;
mod text;
mod token;
mod tokens;
mod whole;
mod words;

pub use kind::Kind;
pub use laws::{
    plain_is_read, printed_is_read, same_words_say_the_same, semicolon_changes_nothing,
};
pub use option::{Opt, Options};
pub use parse_refused::ParseRefused;
pub use refusal::Refusal;
pub use seen::Seen;
pub use token::Token;
pub use whole::parse;
