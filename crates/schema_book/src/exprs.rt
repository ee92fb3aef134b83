//! What YIELD and WHERE look at, with numbers for names.
ghost use Rattle.std.specs.Prelude.{◌≡◌, ◌+◌, ◌<◌, ◌++◌, ◌∷◌, [], pos, IfOk, OnOk, filter, map};
ghost use Rattle.schema_book.specs.Entries.{most_entries};
ghost use Rattle.std.specs.List.{find};
ghost use Rattle.schema_book.specs.Exprs as spec;
ghost use Rattle.schema_book.specs.Refusals.{Passes};

use crate::bound::{Cond, Expr, Exprs, Places, Step};
use crate::catalog::Catalog;
use crate::columns::column_place;
use crate::refused::{BookRefused, Stop};
use graph_model::Types;
use lists::{Listed, NoMemory};
use ngql_syntax::{Names, RawCond, RawExpr, RawStep, Spanned};
use std::alloc::Global;

/// Whether the type at a place has this name.
fn is_at(types: &Catalog, name: &[u8], place: usize) -> bool
    ensures { result ≡ spec.is_at types.now name.now place }
{
    match types.at(place) {
        Some((other, _)) => name == other,
        None => false,
    }
}

/// Where the column stands in the type at a place.
fn column_at(types: &Catalog, column: &[u8], place: usize) -> Option<usize>
    ensures { result ≡ spec.column_at types.now column.now place }
{
    match types.at(place) {
        Some((_, columns)) => column_place(columns.as_slice(), column),
        None => None,
    }
}

/// The first of these types that has this name.
fn find_named(types: &Catalog, name: &[u8], places: &[usize]) -> Option<usize>
    ensures { result ≡ find (spec.is_at types.now name.now) places.now }
{
    for place in places {
        if is_at(types, name, *place) {
            return Some(*place);
        }
    }
    None
}

/// Refuses `name.column` where no type of the statement has this name, and where it has no such column.
#[tactic(auto, unfolding(crate::specs::Exprs::expr_refused))]
fn check_expr(alloc: Global, types: &Catalog, places: &[usize], expr: &RawExpr) -> Result<(), Stop>
    ensures { Passes result (spec.expr_refused types.now places.now expr.now) }
{
    let RawExpr::Named(owner, column) = expr else {
        return Ok(());
    };
    let Some(place) = find_named(types, owner.text.as_slice(), places) else {
        let text = owner.text.copy(alloc)?;
        return Err(Stop::Refused(BookRefused::NoSuchName(text)));
    };
    if column_at(types, column.text.as_slice(), place).is_none() {
        let text = column.text.copy(alloc)?;
        return Err(Stop::Refused(BookRefused::NoSuchName(text)));
    }
    Ok(())
}

/// Refuses the first name that isn't there.
#[tactic(auto, unfolding(crate::specs::Exprs::exprs_refused))]
pub fn check_exprs(
    alloc: Global,
    types: &Catalog,
    places: &[usize],
    exprs: &[RawExpr],
) -> Result<(), Stop>
    ensures { Passes result (spec.exprs_refused types.now places.now exprs.now) }
{
    for expr in exprs {
        check_expr(alloc, types, places, expr)?;
    }
    Ok(())
}

fn check_step(alloc: Global, types: &Catalog, places: &[usize], step: &RawStep) -> Result<(), Stop>
    ensures { Passes result (spec.step_refused types.now places.now step.now) }
{
    match step {
        RawStep::Test(expr, _, _) => check_expr(alloc, types, places, expr),
        _ => Ok(()),
    }
}

#[tactic(auto, unfolding(crate::specs::Exprs::steps_refused))]
fn check_steps(
    alloc: Global,
    types: &Catalog,
    places: &[usize],
    steps: &[RawStep],
) -> Result<(), Stop>
    ensures { Passes result (spec.steps_refused types.now places.now steps.now) }
{
    for step in steps {
        check_step(alloc, types, places, step)?;
    }
    Ok(())
}

/// The same in a condition.
#[tactic(auto, unfolding(crate::specs::Exprs::cond_refused))]
pub fn check_cond(
    alloc: Global,
    types: &Catalog,
    places: &[usize],
    cond: &Option<RawCond>,
) -> Result<(), Stop>
    ensures { Passes result (spec.cond_refused types.now places.now cond.now) }
{
    match cond {
        Some(steps) => check_steps(alloc, types, places, steps.as_slice()),
        None => Ok(()),
    }
}

fn place_at(types: &Catalog, column: &[u8], place: usize) -> Option<(u32, usize)>
    ensures { result ≡ spec.place_at types.now column.now place }
{
    let _ = types.at(place)?;
    let found = column_at(types, column, place)?;
    Some((place as u32 + 1, found))
}

#[tactic(auto, unfolding(crate::specs::Exprs::places_of))]
fn places_of(
    alloc: Global,
    types: &Catalog,
    column: &[u8],
    places: &[usize],
) -> Result<Places, NoMemory>
    ensures { IfOk result (λ made. made ≡ spec.places_of types.now column.now places.now) }
{
    let mut made = Listed::new(alloc);
    for place in places {
        if let Some(found) = place_at(types, column, *place) {
            made.push(found)?;
        }
    }
    Ok(made)
}

#[tactic(auto, unfolding(crate::specs::Exprs::named_places))]
fn named_places(
    alloc: Global,
    types: &Catalog,
    owner: &[u8],
    column: &[u8],
    places: &[usize],
) -> Result<Places, NoMemory>
    ensures { IfOk result (λ made. made ≡ spec.named_places types.now owner.now column.now places.now) }
{
    let mut made = Listed::new(alloc);
    for place in places {
        if is_at(types, owner, *place) {
            if let Some(found) = place_at(types, column, *place) {
                made.push(found)?;
            }
        }
    }
    Ok(made)
}

/// What is looked at.
#[tactic(auto, unfolding(crate::specs::Exprs::expr_of))]
fn expr_of(
    alloc: Global,
    types: &Catalog,
    places: &[usize],
    expr: &RawExpr,
) -> Result<Expr, NoMemory>
    ensures { IfOk result (λ made. made ≡ spec.expr_of types.now places.now expr.now) }
{
    match expr {
        RawExpr::Src => Ok(Expr::Src),
        RawExpr::Dst => Ok(Expr::Dst),
        RawExpr::Rank => Ok(Expr::Rank),
        RawExpr::Id => Ok(Expr::Id),
        RawExpr::Label => Ok(Expr::Label),
        RawExpr::Property(column) => {
            let made = places_of(alloc, types, column.text.as_slice(), places)?;
            Ok(Expr::Prop(made))
        }
        RawExpr::Named(owner, column) => {
            let owner = owner.text.as_slice();
            let made = named_places(alloc, types, owner, column.text.as_slice(), places)?;
            Ok(Expr::Prop(made))
        }
    }
}

/// What is shown.
#[tactic(auto, unfolding(crate::specs::Exprs::exprs_of))]
pub fn exprs_of(
    alloc: Global,
    types: &Catalog,
    places: &[usize],
    exprs: &[RawExpr],
) -> Result<Exprs, NoMemory>
    ensures { IfOk result (λ made. made ≡ spec.exprs_of types.now places.now exprs.now) }
{
    let mut made = Listed::new(alloc);
    for expr in exprs {
        made.push(expr_of(alloc, types, places, expr)?)?;
    }
    Ok(made)
}

fn step_of(
    alloc: Global,
    types: &Catalog,
    places: &[usize],
    step: &RawStep,
) -> Result<Step, NoMemory>
    ensures { IfOk result (λ made. made ≡ spec.step_of types.now places.now step.now) }
{
    match step {
        RawStep::Test(expr, rel, lit) => {
            let expr = expr_of(alloc, types, places, expr)?;
            let value = lit.val.copy(alloc)?;
            Ok(Step::Test(expr, *rel, value))
        }
        RawStep::Not => Ok(Step::Not),
        RawStep::And => Ok(Step::And),
        RawStep::Or => Ok(Step::Or),
    }
}

/// A condition, step by step.
#[tactic(auto, unfolding(crate::specs::Exprs::steps_of))]
pub fn steps_of(
    alloc: Global,
    types: &Catalog,
    places: &[usize],
    steps: &[RawStep],
) -> Result<Cond, NoMemory>
    ensures { IfOk result (λ made. made ≡ spec.steps_of types.now places.now steps.now) }
{
    let mut made = Listed::new(alloc);
    for step in steps {
        made.push(step_of(alloc, types, places, step)?)?;
    }
    Ok(made)
}

/// Refuses the first name behind OVER that no edge type has.
#[tactic(auto, unfolding(crate::specs::Exprs::over_refused))]
pub fn check_over(alloc: Global, types: &Catalog, over: &Option<Names>) -> Result<(), Stop>
    ensures { Passes result (spec.over_refused types.now over.now) }
{
    match over {
        Some(names) => check_types(alloc, types, names.as_slice()),
        None => Ok(()),
    }
}

#[tactic(auto, unfolding(crate::specs::Exprs::types_refused))]
fn check_types(alloc: Global, types: &Catalog, names: &[Spanned]) -> Result<(), Stop>
    ensures { Passes result (spec.types_refused types.now names.now) }
{
    for name in names {
        if !types.has(name.text.as_slice()) {
            let text = name.text.copy(alloc)?;
            return Err(Stop::Refused(BookRefused::NoSuchName(text)));
        }
    }
    Ok(())
}

fn is_any_at(types: &Catalog, names: &[Spanned], place: usize) -> bool
    ensures { result ≡ spec.is_any_at types.now names.now place }
{
    for name in names {
        if is_at(types, name.text.as_slice(), place) {
            return true;
        }
    }
    false
}

fn is_over(types: &Catalog, over: &Option<Names>, place: usize) -> bool
    ensures { result ≡ spec.is_over types.now over.now place }
{
    match over {
        Some(names) => is_any_at(types, names.as_slice(), place),
        None => types.at(place).is_some(),
    }
}

/// Puts the place at the end, if the type there is walked.
fn push_over(
    types: &Catalog,
    over: &Option<Names>,
    places: &mut Listed<usize>,
    place: usize,
) -> Result<(), NoMemory>
    ensures { OnOk result (places.new ≡ places.old ++ filter (spec.is_over types.now over.now) (place ∷ [])) }
{
    if is_over(types, over, place) {
        places.push(place)?;
    }
    Ok(())
}

/// The places of the types that are walked, rising.
#[tactic(auto, unfolding(crate::specs::Exprs::over_places))]
pub fn over_places(
    alloc: Global,
    types: &Catalog,
    over: &Option<Names>,
) -> Result<Listed<usize>, NoMemory>
    ensures { IfOk result (λ places. places ≡ spec.over_places types.now over.now) }
{
    let mut places = Listed::new(alloc);
    for place in 0..types.len() {
        push_over(types, over, &mut places, place)?;
    }
    Ok(places)
}

/// Puts the number of the type at the place at the end, if it is walked.
fn push_number(
    types: &Catalog,
    over: &Option<Names>,
    numbers: &mut Vec<i32>,
    place: usize,
) -> Result<(), NoMemory>
    requires { place < most_entries }
    ensures { OnOk result (numbers.new.items ≡ numbers.old.items ++ map (λ i. pos (i + 1)) (filter (spec.is_over types.now over.now) (place ∷ []))) }
{
    if is_over(types, over, place) {
        numbers.push(place as i32 + 1)?;
    }
    Ok(())
}

/// The numbers of the types that are walked, rising.
#[tactic(auto, unfolding(crate::specs::Exprs::over_places))]
pub fn types_of(alloc: Global, types: &Catalog, over: &Option<Names>) -> Result<Types, NoMemory>
    ensures { IfOk result (λ made. made ≡ map (λ i. pos (i + 1)) (spec.over_places types.now over.now)) }
{
    let mut numbers = Vec::new(alloc);
    for place in 0..types.len() {
        push_number(types, over, &mut numbers, place)?;
    }
    Types::from_slice(alloc, numbers.as_slice())
}
