//! INSERT.
ghost use Rattle.std.specs.Prelude.{[], ◌∷◌};
ghost use Rattle.ngql_parser.specs.Gives.{Gives};
ghost use Rattle.ngql_parser.specs.Kinds.{code};
ghost use Rattle.ngql_parser.specs.Rules as rule;
ghost use Rattle.ngql_parser.specs.declared.kind.Kind.TheVariants as kind;

use crate::edges::read_ends;
use crate::kind::Kind;
use crate::leaves::{is_next, read_ine, read_lit, read_name, read_vid, read_word};
use crate::list::{Item, is_item_next, read_limited, read_several};
use crate::names::{NameItem, is_vid};
use crate::refusal::Refusal;
use crate::token::Token;
use lists::Listed;
use ngql_syntax::{
    EdgeRow, EdgeRows, Lit, Lits, Names, PutEdges, PutVertices, Spanned, Statement, Values,
    VertexRow, VertexRows,
};
use std::alloc::Global;

/// A literal in a list.
pub struct LitItem;

/// A vertex with its values in a list.
pub struct VertexItem;

/// An edge with its values in a list.
pub struct EdgeItem;

impl Item for LitItem {
    type Value = Lit;

    ghost begin = { code kind.SmallInt ∷ code kind.Int ∷ code kind.True ∷ code kind.False ∷ code kind.Text ∷ code kind.Null ∷ code kind.WideInt ∷ code kind.LongText ∷ [] };

    ghost reading = { λ d ts. rule.reads d rule.lit ts };

    fn is_begun_by(kind: Kind) -> bool {
        matches!(
            kind,
            Kind::SmallInt
                | Kind::Int
                | Kind::True
                | Kind::False
                | Kind::Text
                | Kind::Null
                | Kind::WideInt
                | Kind::LongText
        )
    }

    fn read(alloc: Global, d: usize, tokens: &[Token]) -> Result<(Lit, &[Token]), Refusal> {
        read_lit(alloc, d, tokens)
    }
}

impl Item for VertexItem {
    type Value = VertexRow;

    ghost begin = { code kind.SmallInt ∷ code kind.Int ∷ code kind.Text ∷ code kind.WideInt ∷ code kind.LongText ∷ [] };

    ghost reading = { λ d ts. rule.reads d rule.vertex_row ts };

    fn is_begun_by(kind: Kind) -> bool {
        is_vid(kind)
    }

    fn read(alloc: Global, d: usize, tokens: &[Token]) -> Result<(VertexRow, &[Token]), Refusal> {
        read_vertex_row(alloc, d, tokens)
    }
}

impl Item for EdgeItem {
    type Value = EdgeRow;

    ghost begin = { code kind.SmallInt ∷ code kind.Int ∷ code kind.Text ∷ code kind.WideInt ∷ code kind.LongText ∷ [] };

    ghost reading = { λ d ts. rule.reads d rule.edge_row ts };

    fn is_begun_by(kind: Kind) -> bool {
        is_vid(kind)
    }

    fn read(alloc: Global, d: usize, tokens: &[Token]) -> Result<(EdgeRow, &[Token]), Refusal> {
        read_edge_row(alloc, d, tokens)
    }
}

/// The listed columns.
#[tactic(auto, unfolding(crate::specs::Rules::cols, crate::specs::Rules::name))]
fn read_cols(alloc: Global, d: usize, tokens: &[Token]) -> Result<(Names, &[Token]), Refusal>
    ensures { Gives result (rule.reads d rule.cols tokens.now) }
{
    let (_, rest) = read_word(d, tokens, Kind::Open)?;
    if !is_item_next::<NameItem>(rest) {
        let (_, rest) = read_word(d, rest, Kind::Close)?;
        return Ok((Listed::new(alloc), rest));
    }
    let (names, rest) = read_several::<NameItem>(alloc, d, rest)?;
    let (_, rest) = read_word(d, rest, Kind::Close)?;
    Ok((names, rest))
}

#[tactic(auto, unfolding(crate::specs::Rules::vals_behind, crate::specs::Rules::lit))]
fn read_vals_behind(alloc: Global, d: usize, tokens: &[Token]) -> Result<(Lits, &[Token]), Refusal>
    ensures { Gives result (rule.reads d rule.vals_behind tokens.now) }
{
    if !is_item_next::<LitItem>(tokens) {
        let (_, rest) = read_word(d, tokens, Kind::Close)?;
        return Ok((Listed::new(alloc), rest));
    }
    let (list, rest) = read_several::<LitItem>(alloc, d, tokens)?;
    let (_, rest) = read_word(d, rest, Kind::Close)?;
    Ok((list, rest))
}

/// Values in parentheses.
#[tactic(auto, unfolding(crate::specs::Rules::vals))]
fn read_vals(alloc: Global, d: usize, tokens: &[Token]) -> Result<(Values, &[Token]), Refusal>
    ensures { Gives result (rule.reads d rule.vals tokens.now) }
{
    let (at, rest) = read_word(d, tokens, Kind::Open)?;
    let (list, rest) = read_vals_behind(alloc, d, rest)?;
    Ok((Values { at, list }, rest))
}

#[tactic(auto, unfolding(crate::specs::Rules::colon_vals))]
fn read_colon_vals(alloc: Global, d: usize, tokens: &[Token]) -> Result<(Values, &[Token]), Refusal>
    ensures { Gives result (rule.reads d rule.colon_vals tokens.now) }
{
    let (_, rest) = read_word(d, tokens, Kind::Colon)?;
    let (values, rest) = read_vals(alloc, d, rest)?;
    Ok((values, rest))
}

/// A vertex with its values.
#[tactic(auto, unfolding(crate::specs::Rules::vertex_row))]
fn read_vertex_row(
    alloc: Global,
    d: usize,
    tokens: &[Token],
) -> Result<(VertexRow, &[Token]), Refusal>
    ensures { Gives result (rule.reads d rule.vertex_row tokens.now) }
{
    let (id, rest) = read_vid(alloc, d, tokens)?;
    let (values, rest) = read_colon_vals(alloc, d, rest)?;
    Ok((VertexRow { id, values }, rest))
}

/// The vertices.
#[tactic(auto, unfolding(crate::specs::Rules::vertex_rows, crate::specs::Rules::vertex_row, crate::specs::Rules::vid))]
fn read_vertex_rows(
    alloc: Global,
    d: usize,
    tokens: &[Token],
) -> Result<(VertexRows, &[Token]), Refusal>
    ensures { Gives result (rule.reads d rule.vertex_rows tokens.now) }
{
    let (_, rest) = read_word(d, tokens, Kind::Values)?;
    let (rows, rest) = read_limited::<VertexItem>(alloc, d, rest, 64)?;
    Ok((rows, rest))
}

/// An edge with its values.
#[tactic(auto, unfolding(crate::specs::Rules::edge_row))]
fn read_edge_row(alloc: Global, d: usize, tokens: &[Token]) -> Result<(EdgeRow, &[Token]), Refusal>
    ensures { Gives result (rule.reads d rule.edge_row tokens.now) }
{
    let (ends, rest) = read_ends(alloc, d, tokens)?;
    let (values, rest) = read_colon_vals(alloc, d, rest)?;
    Ok((EdgeRow { ends, values }, rest))
}

/// The edges.
#[tactic(auto, unfolding(crate::specs::Rules::edge_rows, crate::specs::Rules::edge_row, crate::specs::Rules::ends, crate::specs::Rules::vid))]
fn read_edge_rows(
    alloc: Global,
    d: usize,
    tokens: &[Token],
) -> Result<(EdgeRows, &[Token]), Refusal>
    ensures { Gives result (rule.reads d rule.edge_rows tokens.now) }
{
    let (_, rest) = read_word(d, tokens, Kind::Values)?;
    let (rows, rest) = read_limited::<EdgeItem>(alloc, d, rest, 64)?;
    Ok((rows, rest))
}

/// IF NOT EXISTS, the name and the listed columns.
#[tactic(auto, unfolding(crate::specs::Rules::put_head))]
fn read_put_head(
    alloc: Global,
    d: usize,
    tokens: &[Token],
) -> Result<((bool, (Spanned, Names)), &[Token]), Refusal>
    ensures { Gives result (rule.reads d rule.put_head tokens.now) }
{
    let (absent, rest) = read_ine(d, tokens)?;
    let (name, rest) = read_name(alloc, d, rest)?;
    let (columns, rest) = read_cols(alloc, d, rest)?;
    Ok(((absent, (name, columns)), rest))
}

#[tactic(auto, unfolding(crate::specs::Rules::put_vertices))]
fn read_put_vertices(
    alloc: Global,
    d: usize,
    tokens: &[Token],
) -> Result<(PutVertices, &[Token]), Refusal>
    ensures { Gives result (rule.reads d rule.put_vertices tokens.now) }
{
    let ((absent, (name, columns)), rest) = read_put_head(alloc, d, tokens)?;
    let (rows, rest) = read_vertex_rows(alloc, d, rest)?;
    Ok((
        PutVertices {
            absent,
            name,
            columns,
            rows,
        },
        rest,
    ))
}

#[tactic(auto, unfolding(crate::specs::Rules::put_vertex))]
fn read_put_vertex(
    alloc: Global,
    d: usize,
    tokens: &[Token],
) -> Result<(Statement, &[Token]), Refusal>
    ensures { Gives result (rule.reads d rule.put_vertex tokens.now) }
{
    let (_, rest) = read_word(d, tokens, Kind::Vertex)?;
    let (made, rest) = read_put_vertices(alloc, d, rest)?;
    Ok((Statement::PutVertex(made), rest))
}

#[tactic(auto, unfolding(crate::specs::Rules::put_edges))]
fn read_put_edges(
    alloc: Global,
    d: usize,
    tokens: &[Token],
) -> Result<(PutEdges, &[Token]), Refusal>
    ensures { Gives result (rule.reads d rule.put_edges tokens.now) }
{
    let ((absent, (name, columns)), rest) = read_put_head(alloc, d, tokens)?;
    let (rows, rest) = read_edge_rows(alloc, d, rest)?;
    Ok((
        PutEdges {
            absent,
            name,
            columns,
            rows,
        },
        rest,
    ))
}

#[tactic(auto, unfolding(crate::specs::Rules::put_edge))]
fn read_put_edge(
    alloc: Global,
    d: usize,
    tokens: &[Token],
) -> Result<(Statement, &[Token]), Refusal>
    ensures { Gives result (rule.reads d rule.put_edge tokens.now) }
{
    let (_, rest) = read_word(d, tokens, Kind::Edge)?;
    let (made, rest) = read_put_edges(alloc, d, rest)?;
    Ok((Statement::PutEdge(made), rest))
}

#[tactic(auto, unfolding(crate::specs::Rules::put, crate::specs::Rules::put_vertex))]
fn read_put(alloc: Global, d: usize, tokens: &[Token]) -> Result<(Statement, &[Token]), Refusal>
    ensures { Gives result (rule.reads d rule.put tokens.now) }
{
    if is_next(tokens, Kind::Vertex) {
        return read_put_vertex(alloc, d, tokens);
    }
    read_put_edge(alloc, d, tokens)
}

/// INSERT
#[tactic(auto, unfolding(crate::specs::Rules::insert))]
pub fn read_insert(
    alloc: Global,
    d: usize,
    tokens: &[Token],
) -> Result<(Statement, &[Token]), Refusal>
    ensures { Gives result (rule.reads d rule.insert tokens.now) }
{
    let (_, rest) = read_word(d, tokens, Kind::Insert)?;
    let (made, rest) = read_put(alloc, d, rest)?;
    Ok((made, rest))
}
