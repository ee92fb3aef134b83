//! FETCH.
ghost use Rattle.std.specs.Prelude.{◌≡◌, IfOk};
ghost use Rattle.ngql_parser.specs.Gives.{Gives};
ghost use Rattle.ngql_parser.specs.Rules as rule;

use crate::edges::{EndsItem, read_ends_behind};
use crate::exprs::{read_edge_yield, read_vertex_yield};
use crate::kind::Kind;
use crate::leaves::{is_next, read_name, read_vid, read_word};
use crate::list::read_limited;
use crate::names::VidItem;
use crate::refusal::Refusal;
use crate::token::Token;
use lists::{Listed, NoMemory};
use ngql_syntax::{Ends, EndsList, Lit, Lits, RawExprs, Spanned, Statement};
use std::alloc::Global;

/// What stands behind the first id of a FETCH: other ids, or the rest of the edge that it begins and other edges.
#[derive(Drop)]
pub enum Behind {
    /// Other ids, and what is shown of them.
    Ids(Lits, RawExprs),
    /// The destination, the rank, other edges, and what is shown of them.
    Ends(Lit, i64, EndsList, RawExprs),
}

/// The statement whose name, first id and other words are known. Refused for want of memory alone.
fn fetched(alloc: Global, name: Spanned, first: Lit, behind: Behind) -> Result<Statement, NoMemory>
    ensures { IfOk result (λ made. made ≡ rule.fetched name first behind) }
{
    match behind {
        Behind::Ids(others, shown) => {
            let mut vids = Listed::new(alloc);
            vids.push(first)?;
            vids.append(others)?;
            Ok(Statement::FetchVertex(name, vids, shown))
        }
        Behind::Ends(dst, rank, others, shown) => {
            let mut ends = Listed::new(alloc);
            ends.push(Ends {
                src: first,
                dst,
                rank,
            })?;
            ends.append(others)?;
            Ok(Statement::FetchEdge(name, ends, shown))
        }
    }
}

#[tactic(auto, unfolding(crate::specs::Rules::other_ids, crate::specs::Rules::vid))]
fn read_other_ids(alloc: Global, d: usize, tokens: &[Token]) -> Result<(Lits, &[Token]), Refusal>
    ensures { Gives result (rule.reads d rule.other_ids tokens.now) }
{
    if !is_next(tokens, Kind::Comma) {
        return Ok((Listed::new(alloc), tokens));
    }
    let (_, rest) = read_word(d, tokens, Kind::Comma)?;
    let (vids, rest) = read_limited::<VidItem>(alloc, d, rest, 63)?;
    Ok((vids, rest))
}

#[tactic(auto, unfolding(crate::specs::Rules::other_ends, crate::specs::Rules::ends, crate::specs::Rules::vid))]
fn read_other_ends(
    alloc: Global,
    d: usize,
    tokens: &[Token],
) -> Result<(EndsList, &[Token]), Refusal>
    ensures { Gives result (rule.reads d rule.other_ends tokens.now) }
{
    if !is_next(tokens, Kind::Comma) {
        return Ok((Listed::new(alloc), tokens));
    }
    let (_, rest) = read_word(d, tokens, Kind::Comma)?;
    let (ends, rest) = read_limited::<EndsItem>(alloc, d, rest, 63)?;
    Ok((ends, rest))
}

#[tactic(auto, unfolding(crate::specs::Rules::behind_id))]
fn read_behind_id(alloc: Global, d: usize, tokens: &[Token]) -> Result<(Behind, &[Token]), Refusal>
    ensures { Gives result (rule.reads d rule.behind_id tokens.now) }
{
    let (others, rest) = read_other_ids(alloc, d, tokens)?;
    let (shown, rest) = read_vertex_yield(alloc, d, rest)?;
    Ok((Behind::Ids(others, shown), rest))
}

#[tactic(auto, unfolding(crate::specs::Rules::behind_ends))]
fn read_behind_ends(
    alloc: Global,
    d: usize,
    tokens: &[Token],
) -> Result<(Behind, &[Token]), Refusal>
    ensures { Gives result (rule.reads d rule.behind_ends tokens.now) }
{
    let ((dst, rank), rest) = read_ends_behind(alloc, d, tokens)?;
    let (others, rest) = read_other_ends(alloc, d, rest)?;
    let (shown, rest) = read_edge_yield(alloc, d, rest)?;
    Ok((Behind::Ends(dst, rank, others, shown), rest))
}

#[tactic(auto, unfolding(crate::specs::Rules::behind_first, crate::specs::Rules::behind_ends, crate::specs::Rules::ends_behind))]
fn read_behind_first(
    alloc: Global,
    d: usize,
    tokens: &[Token],
) -> Result<(Behind, &[Token]), Refusal>
    ensures { Gives result (rule.reads d rule.behind_first tokens.now) }
{
    if is_next(tokens, Kind::Arrow) {
        return read_behind_ends(alloc, d, tokens);
    }
    read_behind_id(alloc, d, tokens)
}

#[tactic(auto, unfolding(crate::specs::Rules::fetch_on))]
fn read_fetch_on(alloc: Global, d: usize, tokens: &[Token]) -> Result<(Spanned, &[Token]), Refusal>
    ensures { Gives result (rule.reads d rule.fetch_on tokens.now) }
{
    let (_, rest) = read_word(d, tokens, Kind::Fetch)?;
    let (_, rest) = read_word(d, rest, Kind::Prop)?;
    let (_, rest) = read_word(d, rest, Kind::On)?;
    let (name, rest) = read_name(alloc, d, rest)?;
    Ok((name, rest))
}

/// FETCH
#[tactic(auto, unfolding(crate::specs::Rules::fetch))]
pub fn read_fetch(
    alloc: Global,
    d: usize,
    tokens: &[Token],
) -> Result<(Statement, &[Token]), Refusal>
    ensures { Gives result (rule.reads d rule.fetch tokens.now) }
{
    let (name, rest) = read_fetch_on(alloc, d, tokens)?;
    let (first, rest) = read_vid(alloc, d, rest)?;
    let (behind, rest) = read_behind_first(alloc, d, rest)?;
    Ok((fetched(alloc, name, first, behind)?, rest))
}
