//! What there is to do for a line.
ghost use Rattle.std.specs.Prelude.{◌≡◌};
ghost use Rattle.first_script.specs.Works.{work_of};
ghost use Rattle.first_script.specs.Statements.{is_space_line, is_edge_type_line};

use crate::reading::statement_of;
use crate::statement::Statement;

/// What the next line has to be.
#[derive(Clone, Copy)]
pub enum Awaited {
    /// The line that makes the space.
    Space,
    /// The line that makes the edge type.
    EdgeType,
    /// A statement.
    Statement,
    /// Nothing: every line is refused.
    Nothing,
}

/// What there is to do for a line.
#[derive(Clone, Copy)]
pub enum Work {
    /// Nothing: it is a line of the head.
    Ready,
    /// The statement's call.
    Call(Statement),
    /// To refuse it.
    Refused,
}

/// What there is to do for a line, and what the next line has to be.
pub fn read_line(awaited: Awaited, line: &[u8]) -> (Work, Awaited)
    ensures { result ≡ work_of awaited line.now }
{
    match awaited {
        Awaited::Space if is_space_line(line) => (Work::Ready, Awaited::EdgeType),
        Awaited::EdgeType if is_edge_type_line(line) => (Work::Ready, Awaited::Statement),
        Awaited::Statement => match statement_of(line) {
            Some(statement) => (Work::Call(statement), Awaited::Statement),
            None => (Work::Refused, Awaited::Statement),
        },
        _ => (Work::Refused, Awaited::Nothing),
    }
}

#[tactic(auto, unfolding(crate::specs::Statements::is_space_line))]
fn is_space_line(line: &[u8]) -> bool
    ensures { result ≡ is_space_line line.now }
{
    line == b"CREATE SPACE g(partition_num = 2, replica_factor = 1, vid_type = INT64)".as_slice()
}

#[tactic(auto, unfolding(crate::specs::Statements::is_edge_type_line))]
fn is_edge_type_line(line: &[u8]) -> bool
    ensures { result ≡ is_edge_type_line line.now }
{
    line == b"CREATE EDGE follow(degree int)".as_slice()
}
