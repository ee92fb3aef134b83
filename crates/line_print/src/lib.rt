//! The printed answers of a script's lines.
//!
//! Each line of a script that isn't blank and no comment is answered: a statement by what became of its calls or by what it
//! found, a control line by what it did, and a line that isn't taken by why. [`print_line`] puts such a [`LineAnswer`] at the end
//! of what is printed, behind the line's number, with its rows below it; [`by_parser`] and [`by_book`] say what a line is answered
//! that the parser or the schema refuses.
//!
//! **Claimed.** What is put there is, byte for byte, the printed form (`specs/Print`). The forms are a table: one line for each
//! answer, for each refusal, and for each kind of value. These a reader has to believe, with `specs/Refusals`; some are worked by
//! hand ([`laws::printed_by_hand`]).
//!
//! Below are values and the numbers of calls (`graph_model`), the stages of moves (`meta_parts`), and what refuses a line
//! (`ngql_parser`, `schema_book`); above is the driver of a script.
#![tactic(auto)]

pub mod laws;
mod line_answer;
mod line_refused;
mod print;
mod refusals;

pub use line_answer::{LineAnswer, PartNodes, Table};
pub use line_refused::LineRefused;
pub use print::print_line;
pub use refusals::{by_book, by_parser};
