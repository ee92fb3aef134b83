//! The rows that a statement shows.
ghost use Rattle.std.specs.Prelude.{◌≡◌, ◌++◌, map, IfOk, OnOk};
ghost use Rattle.shown_rows.specs.Rows as spec;

use crate::conditions::is_kept;
use crate::values::value_of;
use graph_model::{Found, Query, Row, TagKey, View};
use lists::{Listed, NoMemory};
use schema_book::{Book, Expr, FetchPlan, GoPlan};
use std::alloc::Global;

/// The rows that a statement shows, in order.
pub type Table = Listed<Row>;

/// The rows of a FETCH, by what its reads found, in their order. Refused for want of memory alone.
pub fn fetched_rows(
    alloc: Global,
    book: &Book,
    plan: &FetchPlan,
    views: &[View],
) -> Result<Table, NoMemory>
    ensures { IfOk result (λ rows. rows ≡ spec.fetched_rows book.now.edges plan.now views.now) }
{
    let mut rows = Table::new(alloc);
    for (read, view) in plan.reads.as_slice().iter().zip(views.iter()) {
        let key = key_of(read);
        add_rows(
            alloc,
            book,
            &key,
            plan.shown.as_slice(),
            view.as_slice(),
            &mut rows,
        )?;
    }
    Ok(rows)
}

/// The rows of a GO, by what the last step of its walk found. Refused for want of memory alone.
pub fn walked_rows(
    alloc: Global,
    book: &Book,
    plan: &GoPlan,
    views: &[View],
) -> Result<Table, NoMemory>
    ensures { IfOk result (λ rows. rows ≡ spec.walked_rows book.now.edges plan.now views.now) }
{
    let mut rows = Table::new(alloc);
    for view in views {
        add_kept(alloc, book, plan, view.as_slice(), &mut rows)?;
    }
    Ok(rows)
}

fn key_of(read: &Query) -> Option<TagKey>
    ensures { result ≡ spec.key_of read.now }
{
    match read {
        Query::Tag(vid, tag) => Some(TagKey {
            vid: *vid,
            tag: *tag,
        }),
        _ => None,
    }
}

/// Adds a row for each of what a read found.
fn add_rows(
    alloc: Global,
    book: &Book,
    key: &Option<TagKey>,
    shown: &[Expr],
    view: &[Found],
    rows: &mut Table,
) -> Result<(), NoMemory>
    ensures { OnOk result (rows.new ≡ rows.old ++ map (spec.row_of book.now.edges key.now shown.now) view.now) }
{
    for found in view {
        rows.push(row_of(alloc, book, key, shown, found)?)?;
    }
    Ok(())
}

/// Adds a row for each edge that is kept.
#[tactic(auto, unfolding(crate::specs::Rows::step_rows))]
fn add_kept(
    alloc: Global,
    book: &Book,
    plan: &GoPlan,
    view: &[Found],
    rows: &mut Table,
) -> Result<(), NoMemory>
    ensures { OnOk result (rows.new ≡ rows.old ++ spec.step_rows book.now.edges plan.now view.now) }
{
    for found in view {
        if is_kept(alloc, book, &plan.keep, found)? {
            rows.push(row_of(alloc, book, &None, plan.shown.as_slice(), found)?)?;
        }
    }
    Ok(())
}

#[tactic(auto, unfolding(crate::specs::Rows::row_of))]
fn row_of(
    alloc: Global,
    book: &Book,
    key: &Option<TagKey>,
    shown: &[Expr],
    found: &Found,
) -> Result<Row, NoMemory>
    ensures { IfOk result (λ row. row ≡ spec.row_of book.now.edges key.now shown.now found.now) }
{
    let mut row = Row::new(alloc);
    for expr in shown {
        row.push(value_of(alloc, book, key, found, expr)?)?;
    }
    Ok(row)
}
