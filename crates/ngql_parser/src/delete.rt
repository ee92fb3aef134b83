//! DELETE.
ghost use Rattle.ngql_parser.specs.Gives.{Gives};
ghost use Rattle.ngql_parser.specs.Rules as rule;

use crate::edges::EndsItem;
use crate::kind::Kind;
use crate::leaves::{is_next, read_name, read_word};
use crate::list::read_limited;
use crate::names::VidItem;
use crate::refusal::Refusal;
use crate::token::Token;
use ngql_syntax::{EndsList, Lits, Statement};
use std::alloc::Global;

/// Ids.
#[tactic(auto, unfolding(crate::specs::Rules::vids, crate::specs::Rules::vid))]
pub fn read_vids(alloc: Global, d: usize, tokens: &[Token]) -> Result<(Lits, &[Token]), Refusal>
    ensures { Gives result (rule.reads d rule.vids tokens.now) }
{
    let (vids, rest) = read_limited::<VidItem>(alloc, d, tokens, 64)?;
    Ok((vids, rest))
}

/// Ends of edges.
#[tactic(auto, unfolding(crate::specs::Rules::ends_list, crate::specs::Rules::ends, crate::specs::Rules::vid))]
fn read_ends_list(
    alloc: Global,
    d: usize,
    tokens: &[Token],
) -> Result<(EndsList, &[Token]), Refusal>
    ensures { Gives result (rule.reads d rule.ends_list tokens.now) }
{
    let (list, rest) = read_limited::<EndsItem>(alloc, d, tokens, 64)?;
    Ok((list, rest))
}

/// DELETE EDGE
#[tactic(auto, unfolding(crate::specs::Rules::del_edge))]
fn read_del_edge(
    alloc: Global,
    d: usize,
    tokens: &[Token],
) -> Result<(Statement, &[Token]), Refusal>
    ensures { Gives result (rule.reads d rule.del_edge tokens.now) }
{
    let (_, rest) = read_word(d, tokens, Kind::Edge)?;
    let (name, rest) = read_name(alloc, d, rest)?;
    let (list, rest) = read_ends_list(alloc, d, rest)?;
    Ok((Statement::DelEdge(name, list), rest))
}

/// DELETE VERTEX
#[tactic(auto, unfolding(crate::specs::Rules::del_vertex))]
fn read_del_vertex(
    alloc: Global,
    d: usize,
    tokens: &[Token],
) -> Result<(Statement, &[Token]), Refusal>
    ensures { Gives result (rule.reads d rule.del_vertex tokens.now) }
{
    let (_, rest) = read_word(d, tokens, Kind::Vertex)?;
    let (vids, rest) = read_vids(alloc, d, rest)?;
    Ok((Statement::DelVertex(vids), rest))
}

#[tactic(auto, unfolding(crate::specs::Rules::del, crate::specs::Rules::del_edge))]
fn read_del(alloc: Global, d: usize, tokens: &[Token]) -> Result<(Statement, &[Token]), Refusal>
    ensures { Gives result (rule.reads d rule.del tokens.now) }
{
    if is_next(tokens, Kind::Edge) {
        return read_del_edge(alloc, d, tokens);
    }
    read_del_vertex(alloc, d, tokens)
}

/// DELETE
#[tactic(auto, unfolding(crate::specs::Rules::delete))]
pub fn read_delete(
    alloc: Global,
    d: usize,
    tokens: &[Token],
) -> Result<(Statement, &[Token]), Refusal>
    ensures { Gives result (rule.reads d rule.delete tokens.now) }
{
    let (_, rest) = read_word(d, tokens, Kind::Delete)?;
    let (made, rest) = read_del(alloc, d, rest)?;
    Ok((made, rest))
}
