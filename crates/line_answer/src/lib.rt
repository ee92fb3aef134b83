//! What a line is answered, by what became of it.
//!
//! A line that the parser or the schema refuses is answered by why ([`unparsed`], [`unbound`]); a statement by how it ended
//! ([`ended`]): done, or its rows by what its reads found, or the call that ended it. [`told`] asks a client how the statement of
//! a line ended.
//!
//! **Claimed.** The answer is just the one that the definition `answered` gives (`specs/Answered`), and of a statement `shown`; it
//! is refused for want of memory alone. Each kind of answer is worked by hand, to its printed form ([`laws::answers_by_hand`]).
//!
//! **To read, and believe**: `specs/Answered`, with the definitions that it names: how a statement ends (`statement_run`), the rows
//! that it shows (`shown_rows`), what a refused line is answered (`line_print`).
//!
//! Below are clients (`statement_run`), rows (`shown_rows`) and printed answers (`line_print`); above is the driver of a script.
#![tactic(auto)]

mod answered;
pub mod laws;

pub use answered::{ended, told, unbound, unparsed};
