//! The schema: the space, its tags and its edge types, and what a statement says by them.
//!
//! A [`Book`] keeps the space, and the tags and edge types in the order of their creation, each with its columns; contracts
//! see it as a `Schema`, two lists with what was made. [`Book::create`] takes a definition, and [`Book::bind`] makes of a
//! written statement what is to be done: calls, one after another, or reads with what they show, or a walk. Names become
//! numbers (the first tag has number 1, and so has the first edge type), literals become ids and rows. Conditions stay
//! lists of steps.
//!
//! **Claimed.** `create` and `bind` answer just what the definitions `created` and `bound` say, and each refusal is theirs:
//! the first in the stated order, at its first place; but for want of memory, behind which all is as it was. `select` and
//! `drop_space` take no memory. An edge that a statement lists twice is bound once, at its first place. What is bound fits the
//! schema: each row its columns, each id the space's kind, and each tag, edge type and column is there.
//!
//! **To read, and believe**, in this order: `specs/Schema` and `Entries`; `Columns` (which values a column takes); `Refusals`
//! (what 'the first' means); `Create`; `Ids`, `Rows`, `Puts`, `Lists`, `Exprs` (what the parts of a statement become, and what
//! refuses them); `Bind`, a definition a statement; `Fits` (what fits a schema).
//!
//! Below are the written statements (`ngql_syntax`), the kinds of ids (`part_keys`), calls and queries (`graph_model`); above
//! will be what runs statements.
#![tactic(auto)]

mod bind;
mod book;
mod bound;
mod catalog;
mod columns;
mod dels;
mod exprs;
mod ids;
mod made;
mod puts;
mod refused;
mod rows;
mod space;

pub use book::Book;
pub use bound::{Bound, Cond, Expr, Exprs, FetchPlan, GoPlan, Ops, Places, Queries, Step, Vids};
pub use made::Made;
pub use refused::BookRefused;
pub use space::Space;
