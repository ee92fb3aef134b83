//! Names and ids in lists.
ghost use Rattle.std.specs.Prelude.{◌≡◌, [], ◌∷◌};
ghost use Rattle.grammar.specs.Grammar.{is_among};
ghost use Rattle.ngql_parser.specs.Kinds.{code, names};
ghost use Rattle.ngql_parser.specs.Rules as rule;
ghost use Rattle.ngql_parser.specs.declared.kind.Kind.TheVariants as kind;

use crate::kind::Kind;
use crate::leaves::{read_name, read_vid};
use crate::list::Item;
use crate::refusal::Refusal;
use crate::token::Token;
use ngql_syntax::{Lit, Spanned};
use std::alloc::Global;

/// A name in a list.
pub struct NameItem;

/// An id in a list.
pub struct VidItem;

impl Item for NameItem {
    type Value = Spanned;

    ghost begin = { names };

    ghost reading = { λ d ts. rule.reads d rule.name ts };

    fn is_begun_by(kind: Kind) -> bool {
        kind.is_name()
    }

    fn read(alloc: Global, d: usize, tokens: &[Token]) -> Result<(Spanned, &[Token]), Refusal> {
        read_name(alloc, d, tokens)
    }
}

/// Whether a token of the kind begins an id.
pub fn is_vid(of: Kind) -> bool
    ensures { result ≡ is_among (code of) (code kind.SmallInt ∷ code kind.Int ∷ code kind.Text ∷ code kind.WideInt ∷ code kind.LongText ∷ []) }
{
    matches!(
        of,
        Kind::SmallInt | Kind::Int | Kind::Text | Kind::WideInt | Kind::LongText
    )
}

impl Item for VidItem {
    type Value = Lit;

    ghost begin = { code kind.SmallInt ∷ code kind.Int ∷ code kind.Text ∷ code kind.WideInt ∷ code kind.LongText ∷ [] };

    ghost reading = { λ d ts. rule.reads d rule.vid ts };

    fn is_begun_by(kind: Kind) -> bool {
        is_vid(kind)
    }

    fn read(alloc: Global, d: usize, tokens: &[Token]) -> Result<(Lit, &[Token]), Refusal> {
        read_vid(alloc, d, tokens)
    }
}
