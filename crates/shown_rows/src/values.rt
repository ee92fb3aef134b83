//! The value of what is looked at.
ghost use Rattle.std.specs.Prelude.{◌≡◌, IfOk};
ghost use Rattle.std.specs.List.{find};
ghost use Rattle.std.specs.Option.{option_map_or};
ghost use Rattle.graph_model.specs.declared.val.Val.TheVariants.{Null};
ghost use Rattle.shown_rows.specs.Values as spec;

use graph_model::{EdgeId, Found, TagKey, Val, Vid};
use lists::{NoMemory, Text};
use schema_book::{Book, Expr};
use std::alloc::Global;

/// The value of what is looked at, of what a read found; null where there is none. `key` names the vertex and the tag where
/// the row is a tag's. Refused for want of memory alone.
pub fn value_of(
    alloc: Global,
    book: &Book,
    key: &Option<TagKey>,
    found: &Found,
    expr: &Expr,
) -> Result<Val, NoMemory>
    ensures { IfOk result (λ value. value ≡ spec.value_of book.now.edges key.now found.now expr.now) }
{
    match (expr, &found.edge) {
        (Expr::Src, Some(edge)) => id_value(alloc, &edge.src),
        (Expr::Dst, Some(edge)) => id_value(alloc, &edge.dst),
        (Expr::Rank, Some(edge)) => Ok(Val::Int(edge.rank)),
        (Expr::Label, Some(edge)) => type_name(alloc, book, edge),
        (Expr::Id, _) => key_value(alloc, key),
        (Expr::Prop(places), _) => {
            let number = number_of(key, &found.edge);
            property(alloc, places.as_slice(), found.row.as_slice(), number)
        }
        _ => Ok(Val::Null),
    }
}

fn id_value(alloc: Global, vid: &Vid) -> Result<Val, NoMemory>
    ensures { IfOk result (λ value. value ≡ spec.id_value vid.now) }
{
    Ok(match vid {
        Vid::Num(number) => Val::Int(*number),
        Vid::Name(name) => Val::Words(Text::from_slice(alloc, name.as_slice())?),
    })
}

fn key_value(alloc: Global, key: &Option<TagKey>) -> Result<Val, NoMemory>
    ensures { IfOk result (λ value. value ≡ option_map_or (λ k. spec.id_value k.vid) key.now Null) }
{
    match key {
        Some(key) => id_value(alloc, &key.vid),
        None => Ok(Val::Null),
    }
}

fn type_number(edge: &EdgeId) -> Option<u32>
    ensures { result ≡ spec.type_number edge.now.etype }
{
    if edge.etype < 0 {
        return None;
    }
    Some(edge.etype as u32)
}

fn type_name(alloc: Global, book: &Book, edge: &EdgeId) -> Result<Val, NoMemory>
    ensures { IfOk result (λ value. value ≡ spec.type_name book.now.edges edge.now) }
{
    let Some(number) = type_number(edge) else {
        return Ok(Val::Null);
    };
    Ok(match book.edge_name(number) {
        Some(name) => Val::Words(Text::from_slice(alloc, name)?),
        None => Val::Null,
    })
}

fn number_of(key: &Option<TagKey>, edge: &Option<EdgeId>) -> Option<u32>
    ensures { result ≡ spec.number_of key.now edge.now }
{
    match (edge, key) {
        (Some(edge), _) => type_number(edge),
        (None, Some(key)) => Some(key.tag),
        (None, None) => None,
    }
}

fn property(
    alloc: Global,
    places: &[(u32, usize)],
    row: &[Val],
    number: Option<u32>,
) -> Result<Val, NoMemory>
    ensures { IfOk result (λ value. value ≡ spec.property places.now row.now number) }
{
    let Some(number) = number else {
        return Ok(Val::Null);
    };
    match column_of(places, number) {
        Some(at) => column_value(alloc, row, at),
        None => Ok(Val::Null),
    }
}

fn column_of(places: &[(u32, usize)], number: u32) -> Option<(u32, usize)>
    ensures { result ≡ find (spec.is_column_of number) places.now }
{
    for at in places {
        if at.0 == number {
            return Some(*at);
        }
    }
    None
}

fn column_value(alloc: Global, row: &[Val], at: (u32, usize)) -> Result<Val, NoMemory>
    ensures { IfOk result (λ value. value ≡ spec.column_value row.now at) }
{
    match row.get(at.1) {
        Some(value) => value.copy(alloc),
        None => Ok(Val::Null),
    }
}
