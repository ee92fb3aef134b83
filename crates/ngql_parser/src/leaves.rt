//! Words, names, numbers and literals.
ghost use Rattle.std.specs.Prelude.{◌≡◌, ◌∷◌, [], IfOk, option_map};
ghost use Rattle.grammar.specs.Reading.{begins_with};
ghost use Rattle.ngql_parser.specs.Fronts.{behind};
ghost use Rattle.ngql_parser.specs.Gives.{Gives};
ghost use Rattle.ngql_parser.specs.Kinds.{code};
ghost use Rattle.ngql_parser.specs.Rules as rule;

use crate::kind::Kind;
use crate::refusal::Refusal;
use crate::token::Token;
use graph_model::Val;
use lists::NoMemory;
use ngql_syntax::{Lit, Spanned};
use std::alloc::Global;

/// Whether the next token is of a kind.
pub fn is_next(tokens: &[Token], kind: Kind) -> bool
    ensures { result ≡ begins_with rule.kind_of (code kind ∷ []) tokens.now }
{
    match tokens.split_first() {
        Some((first, _)) => first.kind.code() == kind.code(),
        None => false,
    }
}

/// What stands behind the next token, if that is of a kind.
pub fn behind_word(tokens: &[Token], kind: Kind) -> Option<&[Token]>
    ensures { option_map (λ rest. rest.now) result ≡ behind (code kind) tokens.now }
{
    match tokens.split_first() {
        Some((first, rest)) if first.kind.code() == kind.code() => Some(rest),
        _ => None,
    }
}

/// A word or a mark, with its place.
pub fn read_word(d: usize, tokens: &[Token], kind: Kind) -> Result<(u32, &[Token]), Refusal>
    ensures { Gives result (rule.reads d (rule.word kind) tokens.now) }
{
    match tokens.split_first() {
        Some((first, rest)) if first.kind.code() == kind.code() => Ok((first.at, rest)),
        _ => Err(Refusal::Misfit(false, tokens)),
    }
}

/// A whole number.
#[tactic(auto, unfolding(crate::specs::Rules::int))]
pub fn read_int(d: usize, tokens: &[Token]) -> Result<(i64, &[Token]), Refusal>
    ensures { Gives result (rule.reads d rule.int tokens.now) }
{
    match tokens.split_first() {
        Some((first, rest)) => match first.kind {
            Kind::SmallInt | Kind::Int => Ok((first.number, rest)),
            Kind::WideInt => Err(Refusal::Misfit(true, tokens)),
            _ => Err(Refusal::Misfit(false, tokens)),
        },
        None => Err(Refusal::Misfit(false, tokens)),
    }
}

/// The name that a token spells. Refused for want of memory alone.
fn spanned(alloc: Global, token: &Token) -> Result<Spanned, NoMemory>
    ensures { IfOk result (λ name. name ≡ rule.spanned token.now) }
{
    Ok(Spanned {
        text: token.text.copy(alloc)?,
        at: token.at,
    })
}

/// A name.
#[tactic(auto, unfolding(crate::specs::Rules::name))]
pub fn read_name(alloc: Global, d: usize, tokens: &[Token]) -> Result<(Spanned, &[Token]), Refusal>
    ensures { Gives result (rule.reads d rule.name tokens.now) }
{
    match tokens.split_first() {
        Some((first, rest)) if first.kind.is_name() => Ok((spanned(alloc, first)?, rest)),
        _ => Err(Refusal::Misfit(false, tokens)),
    }
}

/// A name in front of a dot.
#[tactic(auto, unfolding(crate::specs::Rules::owner))]
pub fn read_owner(alloc: Global, d: usize, tokens: &[Token]) -> Result<(Spanned, &[Token]), Refusal>
    ensures { Gives result (rule.reads d rule.owner tokens.now) }
{
    match tokens.split_first() {
        Some((first, rest)) if first.kind.is_owner() => Ok((spanned(alloc, first)?, rest)),
        _ => Err(Refusal::Misfit(false, tokens)),
    }
}

/// The value of an id. Refused for want of memory alone.
fn vid_value(alloc: Global, token: &Token) -> Result<Val, NoMemory>
    ensures { IfOk result (λ val. val ≡ rule.vid_value token.now.kind token.now) }
{
    match token.kind {
        Kind::Text => Ok(Val::Words(token.text.copy(alloc)?)),
        _ => Ok(Val::Int(token.number)),
    }
}

/// The value of a literal. Refused for want of memory alone.
fn lit_value(alloc: Global, token: &Token) -> Result<Val, NoMemory>
    ensures { IfOk result (λ val. val ≡ rule.lit_value token.now.kind token.now) }
{
    match token.kind {
        Kind::SmallInt | Kind::Int => Ok(Val::Int(token.number)),
        Kind::True => Ok(Val::Flag(true)),
        Kind::False => Ok(Val::Flag(false)),
        Kind::Text => Ok(Val::Words(token.text.copy(alloc)?)),
        _ => Ok(Val::Null),
    }
}

/// An id.
#[tactic(auto, unfolding(crate::specs::Rules::vid))]
pub fn read_vid(alloc: Global, d: usize, tokens: &[Token]) -> Result<(Lit, &[Token]), Refusal>
    ensures { Gives result (rule.reads d rule.vid tokens.now) }
{
    let Some((first, rest)) = tokens.split_first() else {
        return Err(Refusal::Misfit(false, tokens));
    };
    match first.kind {
        Kind::SmallInt | Kind::Int | Kind::Text => {
            let val = vid_value(alloc, first)?;
            Ok((Lit { val, at: first.at }, rest))
        }
        Kind::WideInt | Kind::LongText => Err(Refusal::Misfit(true, tokens)),
        _ => Err(Refusal::Misfit(false, tokens)),
    }
}

/// A literal.
#[tactic(auto, unfolding(crate::specs::Rules::lit))]
pub fn read_lit(alloc: Global, d: usize, tokens: &[Token]) -> Result<(Lit, &[Token]), Refusal>
    ensures { Gives result (rule.reads d rule.lit tokens.now) }
{
    let Some((first, rest)) = tokens.split_first() else {
        return Err(Refusal::Misfit(false, tokens));
    };
    match first.kind {
        Kind::SmallInt | Kind::Int | Kind::True | Kind::False | Kind::Text | Kind::Null => {
            let val = lit_value(alloc, first)?;
            Ok((Lit { val, at: first.at }, rest))
        }
        Kind::WideInt | Kind::LongText => Err(Refusal::Misfit(true, tokens)),
        _ => Err(Refusal::Misfit(false, tokens)),
    }
}

/// IF NOT EXISTS, or nothing.
#[tactic(auto, unfolding(crate::specs::Rules::ine))]
pub fn read_ine(d: usize, tokens: &[Token]) -> Result<(bool, &[Token]), Refusal>
    ensures { Gives result (rule.reads d rule.ine tokens.now) }
{
    if !is_next(tokens, Kind::If) {
        return Ok((false, tokens));
    }
    let (_, rest) = read_word(d, tokens, Kind::If)?;
    let (_, rest) = read_word(d, rest, Kind::Not)?;
    let (_, rest) = read_word(d, rest, Kind::Exists)?;
    Ok((true, rest))
}
