//! What a line of a script says.
//!
//! A line is its bytes without their LF. [`read_line`] tells whether it is blank or a comment, too long, a control line, a
//! statement, or none of these.
//!
//! **Claimed.** The [`Reading`] is the one that the line has by `specs/Lines`: a table with a row for each reading, in the order in
//! which they are looked at. What spells a control is `fault_schedule`'s matter, what spells a statement, and where the first misfit
//! of a line is that spells none, `ngql_parser`'s.
//!
//! Below are these two; above is the driver of a script.
#![tactic(auto)]

mod read;
mod reading;

pub use read::read_line;
pub use reading::Reading;
