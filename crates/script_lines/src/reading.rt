//! What a line says.
use fault_schedule::Control;
use ngql_parser::ParseRefused;
use ngql_syntax::Line;

/// What a line of a script says.
#[derive(Drop)]
pub enum Reading {
    /// It has more than 65,536 bytes.
    TooLong,
    /// Nothing: it is blank, or a comment.
    Nothing,
    /// A fault or a change.
    Control(Control),
    /// It begins with `:`, and spells no control.
    NoControl,
    /// A statement, with its client and whether it is collected.
    Statement(Line),
    /// It spells no statement, for this reason; never for want of memory.
    Refused(ParseRefused),
}
