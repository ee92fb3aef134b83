//! GO.
ghost use Rattle.std.specs.Prelude.{◌≡◌, [], ◌∷◌};
ghost use Rattle.grammar.specs.Reading.{begins_with};
ghost use Rattle.ngql_parser.specs.Gives.{Gives};
ghost use Rattle.ngql_parser.specs.Kinds.{code};
ghost use Rattle.ngql_parser.specs.Rules as rule;
ghost use Rattle.ngql_parser.specs.declared.kind.Kind.TheVariants as kind;

use crate::cond::read_cond;
use crate::delete::read_vids;
use crate::exprs::read_edge_yield;
use crate::kind::Kind;
use crate::leaves::{is_next, read_word};
use crate::list::{is_item_next, read_several};
use crate::names::NameItem;
use crate::option::small;
use crate::placed::is_int;
use crate::refusal::Refusal;
use crate::token::Token;
use ngql_syntax::{GoWords, Lits, Names, RawCond, RawExprs, Statement, Way};
use std::alloc::Global;

#[tactic(auto, unfolding(crate::specs::Rules::step_count))]
fn read_step_count(d: usize, tokens: &[Token]) -> Result<(i64, &[Token]), Refusal>
    ensures { Gives result (rule.reads d rule.step_count tokens.now) }
{
    let Some((first, rest)) = tokens.split_first() else {
        return Err(Refusal::Misfit(false, tokens));
    };
    match first.kind {
        Kind::SmallInt => Ok((first.number, rest)),
        Kind::Int | Kind::WideInt => Err(Refusal::Misfit(true, tokens)),
        _ => Err(Refusal::Misfit(false, tokens)),
    }
}

#[tactic(auto, unfolding(crate::specs::Rules::step_word))]
fn read_step_word(d: usize, tokens: &[Token]) -> Result<(u32, &[Token]), Refusal>
    ensures { Gives result (rule.reads d rule.step_word tokens.now) }
{
    let Some((first, rest)) = tokens.split_first() else {
        return Err(Refusal::Misfit(false, tokens));
    };
    match first.kind {
        Kind::Step | Kind::Steps => Ok((first.at, rest)),
        _ => Err(Refusal::Misfit(false, tokens)),
    }
}

#[tactic(auto, unfolding(crate::specs::Rules::some_steps))]
fn read_some_steps(d: usize, tokens: &[Token]) -> Result<(i64, &[Token]), Refusal>
    ensures { Gives result (rule.reads d rule.some_steps tokens.now) }
{
    let (count, rest) = read_step_count(d, tokens)?;
    let (_, rest) = read_step_word(d, rest)?;
    Ok((count, rest))
}

/// Whether a number stands next.
fn is_int_next(tokens: &[Token]) -> bool
    ensures { result ≡ begins_with rule.kind_of (code kind.SmallInt ∷ code kind.Int ∷ code kind.WideInt ∷ []) tokens.now }
{
    match tokens.split_first() {
        Some((first, _)) => is_int(first.kind),
        None => false,
    }
}

/// The number of steps.
#[tactic(auto, unfolding(crate::specs::Rules::steps, crate::specs::Rules::some_steps, crate::specs::Rules::step_count))]
fn read_steps(d: usize, tokens: &[Token]) -> Result<(u32, &[Token]), Refusal>
    ensures { Gives result (rule.reads d rule.steps tokens.now) }
{
    if !is_int_next(tokens) {
        return Ok((1, tokens));
    }
    let (count, rest) = read_some_steps(d, tokens)?;
    Ok((small(count) as u32, rest))
}

/// Where it starts.
#[tactic(auto, unfolding(crate::specs::Rules::from))]
fn read_from(alloc: Global, d: usize, tokens: &[Token]) -> Result<(Lits, &[Token]), Refusal>
    ensures { Gives result (rule.reads d rule.from tokens.now) }
{
    let (_, rest) = read_word(d, tokens, Kind::From)?;
    let (vids, rest) = read_vids(alloc, d, rest)?;
    Ok((vids, rest))
}

#[tactic(auto, unfolding(crate::specs::Rules::types, crate::specs::Rules::name))]
fn read_types(
    alloc: Global,
    d: usize,
    tokens: &[Token],
) -> Result<(Option<Names>, &[Token]), Refusal>
    ensures { Gives result (rule.reads d rule.types tokens.now) }
{
    let (names, rest) = read_several::<NameItem>(alloc, d, tokens)?;
    Ok((Some(names), rest))
}

#[tactic(auto, unfolding(crate::specs::Rules::over_what, crate::specs::Rules::all_types))]
fn read_over_what(
    alloc: Global,
    d: usize,
    tokens: &[Token],
) -> Result<(Option<Names>, &[Token]), Refusal>
    ensures { Gives result (rule.reads d rule.over_what tokens.now) }
{
    if is_next(tokens, Kind::Star) {
        let (_, rest) = read_word(d, tokens, Kind::Star)?;
        return Ok((None, rest));
    }
    read_types(alloc, d, tokens)
}

/// The edge types.
#[tactic(auto, unfolding(crate::specs::Rules::over))]
fn read_over(
    alloc: Global,
    d: usize,
    tokens: &[Token],
) -> Result<(Option<Names>, &[Token]), Refusal>
    ensures { Gives result (rule.reads d rule.over tokens.now) }
{
    let (_, rest) = read_word(d, tokens, Kind::Over)?;
    let (names, rest) = read_over_what(alloc, d, rest)?;
    Ok((names, rest))
}

/// Which way.
#[tactic(auto, unfolding(crate::specs::Rules::ways))]
fn read_way(d: usize, tokens: &[Token]) -> Result<(Way, &[Token]), Refusal>
    ensures { Gives result (rule.reads d rule.ways tokens.now) }
{
    let Some((first, rest)) = tokens.split_first() else {
        return Ok((Way::Outward, tokens));
    };
    match first.kind {
        Kind::Reversely => Ok((Way::Inward, rest)),
        Kind::Bidirect => Ok((Way::Both, rest)),
        _ => Ok((Way::Outward, tokens)),
    }
}

/// WHERE with its condition, or nothing.
#[tactic(auto, unfolding(crate::specs::Rules::condition))]
fn read_condition(
    alloc: Global,
    d: usize,
    tokens: &[Token],
) -> Result<(Option<RawCond>, &[Token]), Refusal>
    ensures { Gives result (rule.reads d rule.condition tokens.now) }
{
    if !is_next(tokens, Kind::Where) {
        return Ok((None, tokens));
    }
    let (_, rest) = read_word(d, tokens, Kind::Where)?;
    let (cond, rest) = read_cond(alloc, d, rest)?;
    Ok((Some(cond), rest))
}

#[tactic(auto, unfolding(crate::specs::Rules::go_start))]
fn read_go_start(
    alloc: Global,
    d: usize,
    tokens: &[Token],
) -> Result<((u32, Lits), &[Token]), Refusal>
    ensures { Gives result (rule.reads d rule.go_start tokens.now) }
{
    let (steps, rest) = read_steps(d, tokens)?;
    let (start, rest) = read_from(alloc, d, rest)?;
    Ok(((steps, start), rest))
}

#[tactic(auto, unfolding(crate::specs::Rules::go_path))]
fn read_go_path(
    alloc: Global,
    d: usize,
    tokens: &[Token],
) -> Result<((Option<Names>, Way), &[Token]), Refusal>
    ensures { Gives result (rule.reads d rule.go_path tokens.now) }
{
    let (over, rest) = read_over(alloc, d, tokens)?;
    let (way, rest) = read_way(d, rest)?;
    Ok(((over, way), rest))
}

#[tactic(auto, unfolding(crate::specs::Rules::go_end))]
fn read_go_end(
    alloc: Global,
    d: usize,
    tokens: &[Token],
) -> Result<((Option<RawCond>, RawExprs), &[Token]), Refusal>
    ensures { Gives result (rule.reads d rule.go_end tokens.now) }
{
    let (keep, rest) = read_condition(alloc, d, tokens)?;
    let (shown, rest) = read_edge_yield(alloc, d, rest)?;
    Ok(((keep, shown), rest))
}

#[tactic(auto, unfolding(crate::specs::Rules::go_words))]
fn read_go_words(alloc: Global, d: usize, tokens: &[Token]) -> Result<(GoWords, &[Token]), Refusal>
    ensures { Gives result (rule.reads d rule.go_words tokens.now) }
{
    let ((steps, start), rest) = read_go_start(alloc, d, tokens)?;
    let ((over, way), rest) = read_go_path(alloc, d, rest)?;
    let ((keep, shown), rest) = read_go_end(alloc, d, rest)?;
    Ok((
        GoWords {
            steps,
            start,
            over,
            way,
            keep,
            shown,
        },
        rest,
    ))
}

/// GO
#[tactic(auto, unfolding(crate::specs::Rules::go))]
pub fn read_go(alloc: Global, d: usize, tokens: &[Token]) -> Result<(Statement, &[Token]), Refusal>
    ensures { Gives result (rule.reads d rule.go tokens.now) }
{
    let (_, rest) = read_word(d, tokens, Kind::Go)?;
    let (made, rest) = read_go_words(alloc, d, rest)?;
    Ok((Statement::Go(made), rest))
}
