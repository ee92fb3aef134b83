//! Statements of the query language as they are written.
//!
//! A [`Line`] is a statement with its client and whether it was marked to be collected. A [`Statement`] has names where a
//! bound statement has ids, and each name, literal and list of values carries the place at which it stands, counted from 1
//! in the whole line, so that a later refusal can say where.
//!
//! A condition is a list of steps over a stack of answers ([`RawStep`]): no depth of brackets takes a stack of calls to
//! drop, to copy, to bind or to answer it.
//!
//! Here are types alone, and copies of two of them. Above are the parser, which makes statements from the bytes of a line, and the schema
//! book, which binds them. Below are the values of `graph_model` and the kinds of ids of `part_keys`.
//!
//! To read: `statement`, then what it is made of: `define`, `put`, `go`, `cond`, `expr`, `lit`.
#![tactic(auto)]

mod cond;
mod define;
mod expr;
mod go;
mod lit;
mod put;
mod spanned;
mod statement;

pub use cond::{RawCond, RawStep, Rel};
pub use define::{Column, Columns, Define, Kind};
pub use expr::{RawExpr, RawExprs};
pub use go::{GoWords, Way};
pub use lit::{Lit, Lits, Values};
pub use put::{EdgeRow, EdgeRows, Ends, EndsList, PutEdges, PutVertices, VertexRow, VertexRows};
pub use spanned::{Names, Spanned};
pub use statement::{Line, Statement};
