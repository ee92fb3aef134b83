//! What a line is answered.
ghost use Rattle.std.specs.Prelude.{◌≡◌, Some, IfOk};
ghost use Rattle.std.specs.Option.{option_map};
ghost use Rattle.line_print.specs.declared.line_answer.LineAnswer.TheVariants.{Refused};
ghost use Rattle.schema_book.specs.Entries.{Entries};
ghost use Rattle.line_answer.specs.Answered as spec;
ghost use Rattle.statement_run.specs.Kept.{ended_at, kept_by};

use line_print::{LineAnswer, LineRefused, by_book, by_parser};
use lists::NoMemory;
use ngql_parser::ParseRefused;
use schema_book::{Book, BookRefused};
use shown_rows::{fetched_rows, walked_rows};
use statement_run::{Client, Ending};
use std::alloc::Global;

/// What a line is answered that the parser refuses. Refused for want of memory alone, which may be the parser's.
pub fn unparsed(why: ParseRefused) -> Result<LineAnswer, NoMemory>
    ensures { (edges : Entries) → IfOk result (λ answer. spec.answered edges (spec.Unparsed why) ≡ Some answer) }
{
    refused(by_parser(why))
}

/// What a line is answered that the schema refuses. Refused for want of memory alone, which may be the schema's.
pub fn unbound(why: BookRefused) -> Result<LineAnswer, NoMemory>
    ensures { (edges : Entries) → IfOk result (λ answer. spec.answered edges (spec.Unbound why) ≡ Some answer) }
{
    refused(by_book(why))
}

/// The answer of a refusal, if it is one.
fn refused(why: Option<LineRefused>) -> Result<LineAnswer, NoMemory>
    ensures { IfOk result (λ answer. option_map Refused why ≡ Some answer) }
{
    match why {
        Some(why) => Ok(LineAnswer::Refused(why)),
        None => Err(NoMemory),
    }
}

/// What a line is answered whose statement ended. Refused for want of memory alone.
pub fn ended(alloc: Global, book: &Book, ending: &Ending) -> Result<LineAnswer, NoMemory>
    ensures { IfOk result (λ answer. answer ≡ spec.shown book.now.edges ending.now) }
{
    Ok(match ending {
        Ending::Fine => LineAnswer::Fine,
        Ending::Skipped => LineAnswer::Skipped,
        Ending::Pending => LineAnswer::Pending,
        Ending::Fetched(plan, views) => {
            LineAnswer::Rows(fetched_rows(alloc, book, plan, views.as_slice())?)
        }
        Ending::Walked(plan, views) => {
            LineAnswer::Rows(walked_rows(alloc, book, plan, views.as_slice())?)
        }
        Ending::Wide => LineAnswer::Refused(LineRefused::TooWide),
        Ending::Conflict(other, place) => LineAnswer::Conflict(*other, *place),
        Ending::Cancelled(place) => LineAnswer::Cancelled(*place),
        Ending::Unknown(place) => LineAnswer::Unknown(*place),
    })
}

/// What a line of a client is answered by how its statement ended; none where it hasn't ended. Refused for want of memory alone.
pub fn told(
    alloc: Global,
    book: &Book,
    client: &Client,
    line: u64,
) -> Result<Option<LineAnswer>, NoMemory>
    ensures { IfOk result (λ answer. answer ≡ option_map (spec.shown book.now.edges) (ended_at line (kept_by client.now))) }
{
    let Some(ending) = client.answer(line) else {
        return Ok(None);
    };
    Ok(Some(ended(alloc, book, ending)?))
}
