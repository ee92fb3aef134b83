//! The listed columns of an INSERT, its values, and the rows that they make.
ghost use Rattle.std.specs.Prelude.{◌≡◌, IfOk, None, []};
ghost use Rattle.std.specs.Option.{option_copied};
ghost use Rattle.schema_book.specs.Rows as spec;
ghost use Rattle.schema_book.specs.Refusals.{Passes};

use crate::columns::{column_place, fits};
use crate::refused::{BookRefused, Stop};
use graph_model::{Row, Val};
use lists::{Listed, NoMemory};
use ngql_syntax::{Column, Lit, Spanned, Values};
use std::alloc::Global;

/// Where the first of this name stands among the listed ones.
fn name_place(names: &[Spanned], text: &[u8]) -> Option<usize>
    ensures { result ≡ spec.name_place names.now text.now }
{
    for (i, name) in names.iter().enumerate() {
        if text == name.text.as_slice() {
            return Some(i);
        }
    }
    None
}

/// The first column of this name.
fn column_of<'a>(columns: &'a [Column], name: &[u8]) -> Option<&'a Column>
    ensures { option_copied result ≡ spec.column_of columns.now name.now }
{
    let place = column_place(columns, name)?;
    columns.get(place)
}

/// Refuses a listed name that no column has.
#[tactic(auto, unfolding(crate::specs::Rows::no_such_column))]
pub fn check_listed(alloc: Global, columns: &[Column], names: &[Spanned]) -> Result<(), Stop>
    ensures { Passes result (spec.no_such_column columns.now names.now) }
{
    for name in names {
        if column_place(columns, name.text.as_slice()).is_none() {
            let text = name.text.copy(alloc)?;
            return Err(Stop::Refused(BookRefused::NoSuchName(text)));
        }
    }
    Ok(())
}

/// Refuses a listed name that stands before it.
#[tactic(auto, unfolding(crate::specs::Rows::name_twice))]
pub fn check_once(alloc: Global, names: &[Spanned]) -> Result<(), Stop>
    ensures { Passes result (spec.name_twice [] names.now) }
{
    for (i, name) in names.iter().enumerate() {
        if name_place(&names[..i], name.text.as_slice()).is_some() {
            let text = name.text.copy(alloc)?;
            return Err(Stop::Refused(BookRefused::NameTaken(text)));
        }
    }
    Ok(())
}

/// Refuses values that aren't as many as the listed names.
pub fn check_count(names: &[Spanned], values: &Values) -> Result<(), Stop>
    ensures { Passes result (spec.wrong_count names.now values.now) }
{
    if values.list.len() == names.len() {
        return Ok(());
    }
    Err(Stop::Refused(BookRefused::WrongCount(values.at)))
}

/// Refuses a value that doesn't fit the column of its name.
fn check_value(alloc: Global, columns: &[Column], name: &Spanned, value: &Lit) -> Result<(), Stop>
    ensures { Passes result (spec.misfit (spec.column_of columns.now name.now.text) value.now) }
{
    let Some(column) = column_of(columns, name.text.as_slice()) else {
        return Ok(());
    };
    if fits(column, &value.val) {
        return Ok(());
    }
    let text = column.name.copy(alloc)?;
    Err(Stop::Refused(BookRefused::WrongType(text)))
}

/// Refuses the first value that doesn't fit the column of its name.
#[tactic(auto, unfolding(crate::specs::Rows::wrong_value))]
pub fn check_values(
    alloc: Global,
    columns: &[Column],
    names: &[Spanned],
    values: &[Lit],
) -> Result<(), Stop>
    ensures { Passes result (spec.wrong_value columns.now names.now values.now) }
{
    for (i, name) in names.iter().enumerate() {
        if i >= values.len() {
            return Ok(());
        }
        check_value(alloc, columns, name, &values[i])?;
    }
    Ok(())
}

/// Refuses a column that isn't listed, has no DEFAULT and takes no NULL.
#[tactic(auto, unfolding(crate::specs::Rows::not_set))]
pub fn check_set(alloc: Global, columns: &[Column], names: &[Spanned]) -> Result<(), Stop>
    ensures { Passes result (spec.not_set columns.now names.now) }
{
    for column in columns {
        let is_listed = name_place(names, column.name.as_slice()).is_some();
        if !(is_listed || column.standard.is_some() || column.nullable) {
            let text = column.name.copy(alloc)?;
            return Err(Stop::Refused(BookRefused::NotSet(text)));
        }
    }
    Ok(())
}

/// The column's DEFAULT, or else NULL.
fn standard_of(alloc: Global, column: &Column) -> Result<Val, NoMemory>
    ensures { IfOk result (λ value. value ≡ spec.value_or column.now None) }
{
    match &column.standard {
        Some(value) => value.copy(alloc),
        None => Ok(Val::Null),
    }
}

/// The value that a column gets.
fn value_for(
    alloc: Global,
    names: &[Spanned],
    values: &[Lit],
    column: &Column,
) -> Result<Val, NoMemory>
    ensures { IfOk result (λ value. value ≡ spec.value_for names.now values.now column.now) }
{
    let Some(place) = name_place(names, column.name.as_slice()) else {
        return standard_of(alloc, column);
    };
    match values.get(place) {
        Some(lit) => lit.val.copy(alloc),
        None => standard_of(alloc, column),
    }
}

/// The row: a value for each column, in their order.
#[tactic(auto, unfolding(crate::specs::Rows::row_of))]
pub fn row_of(
    alloc: Global,
    columns: &[Column],
    names: &[Spanned],
    values: &[Lit],
) -> Result<Row, NoMemory>
    ensures { IfOk result (λ row. row ≡ spec.row_of columns.now names.now values.now) }
{
    let mut row = Listed::with_capacity(alloc, columns.len())?;
    for column in columns {
        row.push(value_for(alloc, names, values, column)?)?;
    }
    Ok(row)
}
