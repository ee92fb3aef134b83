//! The columns of a tag or an edge type, and the values that they take.
ghost use Rattle.std.specs.Prelude.{◌≡◌, []};
ghost use Rattle.schema_book.specs.Columns as spec;
ghost use Rattle.schema_book.specs.Refusals.{Passes};

use crate::refused::{BookRefused, Stop};
use graph_model::Val;
use ngql_syntax::{Column, Kind};
use std::alloc::Global;

/// Whether the column takes the value.
pub fn fits(column: &Column, value: &Val) -> bool
    ensures { result ≡ spec.fits column.now value.now }
{
    match value {
        Val::Null => column.nullable,
        Val::Int(_) => matches!(column.kind, Kind::Int),
        Val::Flag(_) => matches!(column.kind, Kind::Flag),
        Val::Words(_) => matches!(column.kind, Kind::Words),
    }
}

/// Whether its DEFAULT fits, if it has one.
fn is_sound(column: &Column) -> bool
    ensures { result ≡ spec.is_sound column.now }
{
    match &column.standard {
        Some(value) => fits(column, value),
        None => true,
    }
}

/// Where the first column of this name stands.
pub fn column_place(columns: &[Column], name: &[u8]) -> Option<usize>
    ensures { result ≡ spec.column_place columns.now name.now }
{
    for (i, column) in columns.iter().enumerate() {
        if name == column.name.as_slice() {
            return Some(i);
        }
    }
    None
}

/// Refuses a column whose name stands before it, and one whose DEFAULT doesn't fit.
pub fn check_columns(alloc: Global, columns: &[Column]) -> Result<(), Stop>
    ensures { Passes result (spec.bad_column [] columns.now) }
{
    for (i, column) in columns.iter().enumerate() {
        if column_place(&columns[..i], column.name.as_slice()).is_some() {
            let name = column.name.copy(alloc)?;
            return Err(Stop::Refused(BookRefused::NameTaken(name)));
        }
        if !is_sound(column) {
            let name = column.name.copy(alloc)?;
            return Err(Stop::Refused(BookRefused::WrongType(name)));
        }
    }
    Ok(())
}
