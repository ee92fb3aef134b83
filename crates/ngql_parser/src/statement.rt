//! Statements and lines.
ghost use Rattle.ngql_parser.specs.Gives.{Gives};
ghost use Rattle.ngql_parser.specs.Rules as rule;

use crate::create::{read_create, read_use};
use crate::delete::read_delete;
use crate::fetch::read_fetch;
use crate::go::read_go;
use crate::insert::read_insert;
use crate::kind::Kind;
use crate::leaves::{is_next, read_word};
use crate::option::small;
use crate::refusal::Refusal;
use crate::token::Token;
use ngql_syntax::{Line, Statement};
use std::alloc::Global;

/// A statement.
#[tactic(auto, unfolding(crate::specs::Rules::stmt, crate::specs::Rules::create, crate::specs::Rules::use_of, crate::specs::Rules::insert, crate::specs::Rules::delete, crate::specs::Rules::fetch, crate::specs::Rules::fetch_on))]
fn read_statement(
    alloc: Global,
    d: usize,
    tokens: &[Token],
) -> Result<(Statement, &[Token]), Refusal>
    ensures { Gives result (rule.reads d rule.stmt tokens.now) }
{
    if is_next(tokens, Kind::Create) {
        return read_create(alloc, d, tokens);
    }
    if is_next(tokens, Kind::Use) {
        return read_use(alloc, d, tokens);
    }
    if is_next(tokens, Kind::Insert) {
        return read_insert(alloc, d, tokens);
    }
    if is_next(tokens, Kind::Delete) {
        return read_delete(alloc, d, tokens);
    }
    if is_next(tokens, Kind::Fetch) {
        return read_fetch(alloc, d, tokens);
    }
    read_go(alloc, d, tokens)
}

#[tactic(auto, unfolding(crate::specs::Rules::client_number))]
fn read_client_number(d: usize, tokens: &[Token]) -> Result<(i64, &[Token]), Refusal>
    ensures { Gives result (rule.reads d rule.client_number tokens.now) }
{
    match tokens.split_first() {
        Some((first, rest)) if first.kind.code() == Kind::Client.code() => {
            Ok((first.number, rest))
        }
        _ => Err(Refusal::Misfit(false, tokens)),
    }
}

#[tactic(auto, unfolding(crate::specs::Rules::client_mark))]
fn read_client_mark(d: usize, tokens: &[Token]) -> Result<(i64, &[Token]), Refusal>
    ensures { Gives result (rule.reads d rule.client_mark tokens.now) }
{
    let (_, rest) = read_word(d, tokens, Kind::At)?;
    let (number, rest) = read_client_number(d, rest)?;
    let (_, rest) = read_word(d, rest, Kind::Blank)?;
    Ok((number, rest))
}

/// The client.
#[tactic(auto, unfolding(crate::specs::Rules::client, crate::specs::Rules::client_mark))]
fn read_client(d: usize, tokens: &[Token]) -> Result<(u32, &[Token]), Refusal>
    ensures { Gives result (rule.reads d rule.client tokens.now) }
{
    if !is_next(tokens, Kind::At) {
        return Ok((1, tokens));
    }
    let (number, rest) = read_client_mark(d, tokens)?;
    Ok((small(number) as u32, rest))
}

/// Whether `~` or another mark stands there.
#[tactic(auto, unfolding(crate::specs::Rules::mark))]
fn read_mark(d: usize, tokens: &[Token], kind: Kind) -> Result<(bool, &[Token]), Refusal>
    ensures { Gives result (rule.reads d (rule.mark kind) tokens.now) }
{
    match tokens.split_first() {
        Some((first, rest)) if first.kind.code() == kind.code() => Ok((true, rest)),
        _ => Ok((false, tokens)),
    }
}

#[tactic(auto, unfolding(crate::specs::Rules::whole))]
fn read_whole(alloc: Global, d: usize, tokens: &[Token]) -> Result<(Statement, &[Token]), Refusal>
    ensures { Gives result (rule.reads d rule.whole tokens.now) }
{
    let (statement, rest) = read_statement(alloc, d, tokens)?;
    let (_, rest) = read_mark(d, rest, Kind::Semicolon)?;
    Ok((statement, rest))
}

/// A line.
#[tactic(auto, unfolding(crate::specs::Rules::line))]
pub fn read_line(alloc: Global, d: usize, tokens: &[Token]) -> Result<(Line, &[Token]), Refusal>
    ensures { Gives result (rule.reads d rule.line tokens.now) }
{
    let (client, rest) = read_client(d, tokens)?;
    let (collected, rest) = read_mark(d, rest, Kind::Tilde)?;
    let (statement, rest) = read_whole(alloc, d, rest)?;
    Ok((
        Line {
            client,
            collected,
            statement,
        },
        rest,
    ))
}
