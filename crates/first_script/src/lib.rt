//! The script of the first path: what its lines ask, and how its answers are printed. The replicated program will
//! take its place.
//!
//! A script makes one space and one edge type, and then puts edges (`INSERT EDGE`) and asks for the edges that leave
//! or enter a vertex (`GO FROM .. OVER ..`), a statement a line. Any other line is refused by itself; where one of
//! the first two is not the one that is wanted, it and every line after it are refused.
//!
//! The contract: `next_line` takes the lines of a script apart, `read_line` says of each what there is to do,
//! exactly as the definition `works` does, `op_of` gives the statement's call, `answer_of` what the line is answered
//! once the call is, and `print_line` adds its printed form. The module `laws` proves that each statement that is
//! spelled is read, whatever texts spell its numbers.
//!
//! Below are the graph machine's values (crate `first_graph`) and lists (crate `lists`); above is the program that
//! runs a script against a store.
#![tactic(auto)]

pub mod laws;
mod line_answer;
mod lines;
mod op;
mod print;
mod reading;
mod statement;
mod work;

pub use line_answer::{LineAnswer, Table, answer_of};
pub use lines::{next_line, next_whole_line};
pub use op::op_of;
pub use print::print_line;
pub use reading::statement_of;
pub use statement::Statement;
pub use work::{Awaited, Work, read_line};
