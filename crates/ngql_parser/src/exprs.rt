//! What YIELD and WHERE look at.
ghost use Rattle.std.specs.Prelude.{[], ◌∷◌};
ghost use Rattle.ngql_parser.specs.Gives.{Gives};
ghost use Rattle.ngql_parser.specs.Kinds.{code, owners};
ghost use Rattle.ngql_parser.specs.Rules as rule;
ghost use Rattle.ngql_parser.specs.declared.kind.Kind.TheVariants as kind;

use crate::kind::Kind;
use crate::leaves::{is_next, read_name, read_owner, read_word};
use crate::list::{Item, read_several};
use crate::refusal::Refusal;
use crate::token::Token;
use ngql_syntax::{RawExpr, RawExprs, Spanned};
use std::alloc::Global;

/// What is shown of an edge in a list.
pub struct EdgeShownItem;

/// What is shown of a vertex in a list.
pub struct VertexShownItem;

impl Item for EdgeShownItem {
    type Value = RawExpr;

    ghost begin = { code kind.SrcCall ∷ code kind.DstCall ∷ code kind.RankCall ∷ code kind.TypeCall ∷ code kind.EdgePropsCall ∷ code kind.PropsCall ∷ owners };

    ghost reading = { λ d ts. rule.reads d rule.edge_shown ts };

    fn is_begun_by(kind: Kind) -> bool {
        matches!(
            kind,
            Kind::SrcCall
                | Kind::DstCall
                | Kind::RankCall
                | Kind::TypeCall
                | Kind::EdgePropsCall
                | Kind::PropsCall
        ) || kind.is_owner()
    }

    fn read(alloc: Global, d: usize, tokens: &[Token]) -> Result<(RawExpr, &[Token]), Refusal> {
        read_edge_shown(alloc, d, tokens)
    }
}

impl Item for VertexShownItem {
    type Value = RawExpr;

    ghost begin = { code kind.IdCall ∷ code kind.VertexPropsCall ∷ code kind.PropsCall ∷ owners };

    ghost reading = { λ d ts. rule.reads d rule.vertex_shown ts };

    fn is_begun_by(kind: Kind) -> bool {
        matches!(kind, Kind::IdCall | Kind::VertexPropsCall | Kind::PropsCall) || kind.is_owner()
    }

    fn read(alloc: Global, d: usize, tokens: &[Token]) -> Result<(RawExpr, &[Token]), Refusal> {
        read_vertex_shown(alloc, d, tokens)
    }
}

/// `(edge)` or `(vertex)`
#[tactic(auto, unfolding(crate::specs::Rules::of_kind))]
fn read_of(d: usize, tokens: &[Token], kind: Kind) -> Result<(u32, &[Token]), Refusal>
    ensures { Gives result (rule.reads d (rule.of_kind kind) tokens.now) }
{
    let (_, rest) = read_word(d, tokens, Kind::Open)?;
    let (at, rest) = read_word(d, rest, kind)?;
    let (_, rest) = read_word(d, rest, Kind::Close)?;
    Ok((at, rest))
}

#[tactic(auto, unfolding(crate::specs::Rules::behind_dot))]
fn read_behind_dot(
    alloc: Global,
    d: usize,
    tokens: &[Token],
) -> Result<(Spanned, &[Token]), Refusal>
    ensures { Gives result (rule.reads d rule.behind_dot tokens.now) }
{
    let (_, rest) = read_word(d, tokens, Kind::Dot)?;
    let (name, rest) = read_name(alloc, d, rest)?;
    Ok((name, rest))
}

/// The function of an edge that stands in front of the brackets.
#[tactic(auto, unfolding(crate::specs::Rules::call_word))]
fn read_call_word(d: usize, tokens: &[Token]) -> Result<(RawExpr, &[Token]), Refusal>
    ensures { Gives result (rule.reads d rule.call_word tokens.now) }
{
    let Some((first, rest)) = tokens.split_first() else {
        return Err(Refusal::Misfit(false, tokens));
    };
    match first.kind {
        Kind::SrcCall => Ok((RawExpr::Src, rest)),
        Kind::DstCall => Ok((RawExpr::Dst, rest)),
        Kind::RankCall => Ok((RawExpr::Rank, rest)),
        Kind::TypeCall => Ok((RawExpr::Label, rest)),
        _ => Err(Refusal::Misfit(false, tokens)),
    }
}

/// `src(edge)` and its like.
#[tactic(auto, unfolding(crate::specs::Rules::edge_call))]
fn read_edge_call(d: usize, tokens: &[Token]) -> Result<(RawExpr, &[Token]), Refusal>
    ensures { Gives result (rule.reads d rule.edge_call tokens.now) }
{
    let (expr, rest) = read_call_word(d, tokens)?;
    let (_, rest) = read_of(d, rest, Kind::Edge)?;
    Ok((expr, rest))
}

/// `id(vertex)`
#[tactic(auto, unfolding(crate::specs::Rules::vertex_call))]
fn read_vertex_call(d: usize, tokens: &[Token]) -> Result<(RawExpr, &[Token]), Refusal>
    ensures { Gives result (rule.reads d rule.vertex_call tokens.now) }
{
    let (_, rest) = read_word(d, tokens, Kind::IdCall)?;
    let (_, rest) = read_of(d, rest, Kind::Vertex)?;
    Ok((RawExpr::Id, rest))
}

/// One of two words, with its place.
fn read_either_word(
    d: usize,
    tokens: &[Token],
    one: Kind,
    other: Kind,
) -> Result<(u32, &[Token]), Refusal>
    ensures { Gives result (rule.reads d (rule.either_word one other) tokens.now) }
{
    match tokens.split_first() {
        Some((first, rest))
            if first.kind.code() == one.code() || first.kind.code() == other.code() => {
            Ok((first.at, rest))
        }
        _ => Err(Refusal::Misfit(false, tokens)),
    }
}

/// `(edge).name` or `(vertex).name`
#[tactic(auto, unfolding(crate::specs::Rules::of_dot))]
fn read_of_dot(
    alloc: Global,
    d: usize,
    tokens: &[Token],
    kind: Kind,
) -> Result<(Spanned, &[Token]), Refusal>
    ensures { Gives result (rule.reads d (rule.of_dot kind) tokens.now) }
{
    let (_, rest) = read_of(d, tokens, kind)?;
    let (name, rest) = read_behind_dot(alloc, d, rest)?;
    Ok((name, rest))
}

/// `properties(edge).name`
#[tactic(auto, unfolding(crate::specs::Rules::edge_property))]
fn read_edge_property(
    alloc: Global,
    d: usize,
    tokens: &[Token],
) -> Result<(RawExpr, &[Token]), Refusal>
    ensures { Gives result (rule.reads d rule.edge_property tokens.now) }
{
    let (_, rest) = read_either_word(d, tokens, Kind::EdgePropsCall, Kind::PropsCall)?;
    let (name, rest) = read_of_dot(alloc, d, rest, Kind::Edge)?;
    Ok((RawExpr::Property(name), rest))
}

/// `properties(vertex).name`
#[tactic(auto, unfolding(crate::specs::Rules::vertex_property))]
fn read_vertex_property(
    alloc: Global,
    d: usize,
    tokens: &[Token],
) -> Result<(RawExpr, &[Token]), Refusal>
    ensures { Gives result (rule.reads d rule.vertex_property tokens.now) }
{
    let (_, rest) = read_either_word(d, tokens, Kind::VertexPropsCall, Kind::PropsCall)?;
    let (name, rest) = read_of_dot(alloc, d, rest, Kind::Vertex)?;
    Ok((RawExpr::Property(name), rest))
}

/// `name.column`
#[tactic(auto, unfolding(crate::specs::Rules::named))]
fn read_named(alloc: Global, d: usize, tokens: &[Token]) -> Result<(RawExpr, &[Token]), Refusal>
    ensures { Gives result (rule.reads d rule.named tokens.now) }
{
    let (owner, rest) = read_owner(alloc, d, tokens)?;
    let (name, rest) = read_behind_dot(alloc, d, rest)?;
    Ok((RawExpr::Named(owner, name), rest))
}

/// What is looked at in an edge.
#[tactic(auto, unfolding(crate::specs::Rules::edge_expr, crate::specs::Rules::edge_call, crate::specs::Rules::call_word, crate::specs::Rules::edge_property))]
pub fn read_edge_expr(
    alloc: Global,
    d: usize,
    tokens: &[Token],
) -> Result<(RawExpr, &[Token]), Refusal>
    ensures { Gives result (rule.reads d rule.edge_expr tokens.now) }
{
    let Some((first, _)) = tokens.split_first() else {
        return read_named(alloc, d, tokens);
    };
    match first.kind {
        Kind::SrcCall | Kind::DstCall | Kind::RankCall | Kind::TypeCall => {
            read_edge_call(d, tokens)
        }
        Kind::EdgePropsCall | Kind::PropsCall => read_edge_property(alloc, d, tokens),
        _ => read_named(alloc, d, tokens),
    }
}

/// What is looked at in a vertex.
#[tactic(auto, unfolding(crate::specs::Rules::vertex_expr, crate::specs::Rules::vertex_call, crate::specs::Rules::vertex_property))]
fn read_vertex_expr(
    alloc: Global,
    d: usize,
    tokens: &[Token],
) -> Result<(RawExpr, &[Token]), Refusal>
    ensures { Gives result (rule.reads d rule.vertex_expr tokens.now) }
{
    let Some((first, _)) = tokens.split_first() else {
        return read_named(alloc, d, tokens);
    };
    match first.kind {
        Kind::IdCall => read_vertex_call(d, tokens),
        Kind::VertexPropsCall | Kind::PropsCall => read_vertex_property(alloc, d, tokens),
        _ => read_named(alloc, d, tokens),
    }
}

/// AS and a name, or nothing.
#[tactic(auto, unfolding(crate::specs::Rules::alias))]
fn read_alias(
    alloc: Global,
    d: usize,
    tokens: &[Token],
) -> Result<(Option<Spanned>, &[Token]), Refusal>
    ensures { Gives result (rule.reads d rule.alias tokens.now) }
{
    if !is_next(tokens, Kind::As) {
        return Ok((None, tokens));
    }
    let (_, rest) = read_word(d, tokens, Kind::As)?;
    let (name, rest) = read_name(alloc, d, rest)?;
    Ok((Some(name), rest))
}

#[tactic(auto, unfolding(crate::specs::Rules::edge_shown))]
fn read_edge_shown(
    alloc: Global,
    d: usize,
    tokens: &[Token],
) -> Result<(RawExpr, &[Token]), Refusal>
    ensures { Gives result (rule.reads d rule.edge_shown tokens.now) }
{
    let (expr, rest) = read_edge_expr(alloc, d, tokens)?;
    let (_, rest) = read_alias(alloc, d, rest)?;
    Ok((expr, rest))
}

#[tactic(auto, unfolding(crate::specs::Rules::vertex_shown))]
fn read_vertex_shown(
    alloc: Global,
    d: usize,
    tokens: &[Token],
) -> Result<(RawExpr, &[Token]), Refusal>
    ensures { Gives result (rule.reads d rule.vertex_shown tokens.now) }
{
    let (expr, rest) = read_vertex_expr(alloc, d, tokens)?;
    let (_, rest) = read_alias(alloc, d, rest)?;
    Ok((expr, rest))
}

/// What is shown of edges.
#[tactic(auto, unfolding(crate::specs::Rules::edge_yield, crate::specs::Rules::edge_shown, crate::specs::Rules::edge_expr, crate::specs::Rules::edge_call, crate::specs::Rules::call_word, crate::specs::Rules::edge_property, crate::specs::Rules::named, crate::specs::Rules::owner))]
pub fn read_edge_yield(
    alloc: Global,
    d: usize,
    tokens: &[Token],
) -> Result<(RawExprs, &[Token]), Refusal>
    ensures { Gives result (rule.reads d rule.edge_yield tokens.now) }
{
    let (_, rest) = read_word(d, tokens, Kind::Yield)?;
    let (shown, rest) = read_several::<EdgeShownItem>(alloc, d, rest)?;
    Ok((shown, rest))
}

/// What is shown of vertices.
#[tactic(auto, unfolding(crate::specs::Rules::vertex_yield, crate::specs::Rules::vertex_shown, crate::specs::Rules::vertex_expr, crate::specs::Rules::vertex_call, crate::specs::Rules::vertex_property, crate::specs::Rules::named, crate::specs::Rules::owner))]
pub fn read_vertex_yield(
    alloc: Global,
    d: usize,
    tokens: &[Token],
) -> Result<(RawExprs, &[Token]), Refusal>
    ensures { Gives result (rule.reads d rule.vertex_yield tokens.now) }
{
    let (_, rest) = read_word(d, tokens, Kind::Yield)?;
    let (shown, rest) = read_several::<VertexShownItem>(alloc, d, rest)?;
    Ok((shown, rest))
}
