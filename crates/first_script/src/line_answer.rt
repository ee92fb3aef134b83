//! What a line is answered.
ghost use Rattle.std.specs.Prelude.{◌≡◌, [], ◌∷◌, map, IfOk};
ghost use Rattle.first_script.specs.Answers as spec;

use crate::statement::Statement;
use first_graph::{Answer, CallId, Found, Row, Val};
use lists::{Listed, NoMemory};
use std::alloc::Global;

/// The rows that a statement found.
pub type Table = Listed<Row>;

/// What a line is answered. A place is that of a call in its statement, from 1.
#[derive(Drop)]
pub enum LineAnswer {
    /// It is done.
    Fine,
    /// All that it puts was there.
    Skipped,
    /// A call of it is certain, and done by half.
    Pending,
    /// What it found.
    Rows(Table),
    /// Another call was in the way of the call at this place.
    Conflict(CallId, u32),
    /// The call at this place was not done, and won't be.
    Cancelled(u32),
    /// Nobody answered the call at this place.
    Unknown(u32),
    /// The line is none that may stand there.
    Syntax,
}

/// What a statement is answered whose one call is answered so. Refused for want of memory alone.
pub fn answer_of(
    alloc: Global,
    statement: &Statement,
    answer: &Answer,
) -> Result<LineAnswer, NoMemory>
    ensures { IfOk result (λ made. made ≡ spec.statement_answer statement.now (answer.now ∷ [])) }
{
    Ok(match answer {
        Answer::Fine => finished(alloc, statement, &[])?,
        Answer::Skipped => LineAnswer::Skipped,
        Answer::Pending => LineAnswer::Pending,
        Answer::Conflict(id) => LineAnswer::Conflict(*id, 1),
        Answer::Cancelled => LineAnswer::Cancelled(1),
        Answer::Unknown => LineAnswer::Unknown(1),
        Answer::Shown(view) => finished(alloc, statement, view.as_slice())?,
    })
}

fn finished(alloc: Global, statement: &Statement, found: &[Found]) -> Result<LineAnswer, NoMemory>
    ensures { IfOk result (λ made. made ≡ spec.finished statement.now found.now) }
{
    Ok(match statement {
        Statement::Insert { .. } => LineAnswer::Fine,
        Statement::Out(_) => LineAnswer::Rows(rows_out(alloc, found)?),
        Statement::In(_) => LineAnswer::Rows(rows_in(alloc, found)?),
    })
}

fn rows_out(alloc: Global, found: &[Found]) -> Result<Table, NoMemory>
    ensures { IfOk result (λ rows. rows ≡ map (spec.shown_row (λ edge. edge.dst)) found.now) }
{
    let mut rows = Table::new(alloc);
    for item in found {
        let end = item.edge.map(|edge| edge.dst);
        rows.push(shown_row(alloc, end, &item.row)?)?;
    }
    Ok(rows)
}

fn rows_in(alloc: Global, found: &[Found]) -> Result<Table, NoMemory>
    ensures { IfOk result (λ rows. rows ≡ map (spec.shown_row (λ edge. edge.src)) found.now) }
{
    let mut rows = Table::new(alloc);
    for item in found {
        let end = item.edge.map(|edge| edge.src);
        rows.push(shown_row(alloc, end, &item.row)?)?;
    }
    Ok(rows)
}

fn shown_row(alloc: Global, end: Option<i64>, properties: &Row) -> Result<Row, NoMemory>
    ensures { IfOk result (λ row. row ≡ spec.end_value end ∷ spec.first_value properties.now ∷ []) }
{
    let end = match end {
        Some(vid) => Val::Int(vid),
        None => Val::Null,
    };
    let degree = match properties.as_slice() {
        [first, ..] => first.copy(alloc)?,
        [] => Val::Null,
    };
    let mut row = Row::new(alloc);
    row.push(end)?;
    row.push(degree)?;
    Ok(row)
}
