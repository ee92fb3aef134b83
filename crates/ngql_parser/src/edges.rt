//! Ends of edges.
ghost use Rattle.std.specs.Prelude.{[], ◌∷◌};
ghost use Rattle.ngql_parser.specs.Gives.{Gives};
ghost use Rattle.ngql_parser.specs.Kinds.{code};
ghost use Rattle.ngql_parser.specs.Rules as rule;
ghost use Rattle.ngql_parser.specs.declared.kind.Kind.TheVariants as kind;

use crate::kind::Kind;
use crate::leaves::{is_next, read_int, read_vid, read_word};
use crate::list::Item;
use crate::names::is_vid;
use crate::refusal::Refusal;
use crate::token::Token;
use ngql_syntax::{Ends, Lit};
use std::alloc::Global;

/// The ends of an edge in a list.
pub struct EndsItem;

impl Item for EndsItem {
    type Value = Ends;

    ghost begin = { code kind.SmallInt ∷ code kind.Int ∷ code kind.Text ∷ code kind.WideInt ∷ code kind.LongText ∷ [] };

    ghost reading = { λ d ts. rule.reads d rule.ends ts };

    fn is_begun_by(kind: Kind) -> bool {
        is_vid(kind)
    }

    fn read(alloc: Global, d: usize, tokens: &[Token]) -> Result<(Ends, &[Token]), Refusal> {
        read_ends(alloc, d, tokens)
    }
}

/// The rank of an edge.
#[tactic(auto, unfolding(crate::specs::Rules::rank))]
fn read_rank(d: usize, tokens: &[Token]) -> Result<(i64, &[Token]), Refusal>
    ensures { Gives result (rule.reads d rule.rank tokens.now) }
{
    if !is_next(tokens, Kind::At) {
        return Ok((0, tokens));
    }
    let (_, rest) = read_word(d, tokens, Kind::At)?;
    let (number, rest) = read_int(d, rest)?;
    Ok((number, rest))
}

/// What stands behind the source of an edge.
#[tactic(auto, unfolding(crate::specs::Rules::ends_behind))]
pub fn read_ends_behind(
    alloc: Global,
    d: usize,
    tokens: &[Token],
) -> Result<((Lit, i64), &[Token]), Refusal>
    ensures { Gives result (rule.reads d rule.ends_behind tokens.now) }
{
    let (_, rest) = read_word(d, tokens, Kind::Arrow)?;
    let (dst, rest) = read_vid(alloc, d, rest)?;
    let (rank, rest) = read_rank(d, rest)?;
    Ok(((dst, rank), rest))
}

/// The ends of an edge.
#[tactic(auto, unfolding(crate::specs::Rules::ends))]
pub fn read_ends(alloc: Global, d: usize, tokens: &[Token]) -> Result<(Ends, &[Token]), Refusal>
    ensures { Gives result (rule.reads d rule.ends tokens.now) }
{
    let (src, rest) = read_vid(alloc, d, tokens)?;
    let ((dst, rank), rest) = read_ends_behind(alloc, d, rest)?;
    Ok((Ends { src, dst, rank }, rest))
}
