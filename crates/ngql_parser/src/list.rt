//! Lists: one item or more, with commas between them.
ghost use Rattle.std.specs.Prelude.{◌≡◌, ◌≤◌, ℕ, List, Some, None, false, length, option_map};
ghost use Rattle.grammar.specs.Grammar.{is_among};
ghost use Rattle.grammar.specs.Reading.{Reading, begins_with, items_read, over_read};
ghost use Rattle.ngql_parser.specs.Fronts.{behind_these};
ghost use Rattle.ngql_parser.specs.Gives.{Gives};
ghost use Rattle.ngql_parser.specs.Kinds.{code};
ghost use Rattle.ngql_parser.specs.Rules.{kind_of};
ghost use Rattle.ngql_parser.specs.declared.kind.Kind.TheVariants as kind;
ghost use Rattle.ngql_parser.specs.declared.token.Token.{Token};

use crate::kind::Kind;
use crate::leaves::behind_word;
use crate::refusal::Refusal;
use crate::token::Token;
use lists::Listed;
use std::alloc::Global;

/// What stands in lists.
pub trait Item {
    type Value: Drop;

    ghost begin: { List ℕ };

    ghost reading: { ℕ → List Token → Reading Token Self.Value };

    /// Whether a token of the kind begins one.
    fn is_begun_by(kind: Kind) -> bool
        ensures { result ≡ is_among (code kind) begin };

    /// Reads one.
    fn read(alloc: Global, d: usize, tokens: &[Token]) -> Result<(Self::Value, &[Token]), Refusal>
        ensures { Gives result (reading d tokens.now) };
}

/// A list with no limit.
pub fn read_several<T: Item>(
    alloc: Global,
    d: usize,
    tokens: &[Token],
) -> Result<(Listed<T::Value>, &[Token]), Refusal>
    ensures { Gives result (items_read kind_of 0 false T.begin (T.reading d) (code kind.Comma) d None tokens.now) }
{
    let mut made = Listed::new(alloc);
    let mut rest = tokens;
    for turn in 0..d {
        let (item, behind) = match T::read(alloc, d, rest) {
            Ok(read) => read,
            Err(e) => return Err(e),
        };
        made.push(item)?;
        let Some(next) = behind_word(behind, Kind::Comma) else {
            return Ok((made, behind));
        };
        rest = next;
    }
    Err(Refusal::Spent)
}

/// A list of at most so many items.
pub fn read_limited<T: Item>(
    alloc: Global,
    d: usize,
    tokens: &[Token],
    limit: usize,
) -> Result<(Listed<T::Value>, &[Token]), Refusal>
    ensures { Gives result (items_read kind_of 0 false T.begin (T.reading d) (code kind.Comma) d (Some limit) tokens.now) }
{
    let mut made = Listed::new(alloc);
    let mut rest = tokens;
    for turn in 0..d {
        if turn == limit {
            return read_beyond::<T>(made, rest);
        }
        let (item, behind) = match T::read(alloc, d, rest) {
            Ok(read) => read,
            Err(e) => return Err(e),
        };
        made.push(item)?;
        let Some(next) = behind_word(behind, Kind::Comma) else {
            return Ok((made, behind));
        };
        rest = next;
    }
    Err(Refusal::Spent)
}

/// Whether the next token begins an item.
pub fn is_item_next<T: Item>(tokens: &[Token]) -> bool
    ensures { result ≡ begins_with kind_of T.begin tokens.now }
{
    match tokens.split_first() {
        Some((first, _)) => T::is_begun_by(first.kind),
        None => false,
    }
}

/// What stands where the limit leaves no item.
fn read_beyond<T: Item>(
    made: Listed<T::Value>,
    tokens: &[Token],
) -> Result<(Listed<T::Value>, &[Token]), Refusal>
    ensures { (go : Reading Token (List T.Value)) → Gives result (behind_these made (over_read kind_of 0 false T.begin go tokens.now)) }
{
    match tokens.split_first() {
        Some((first, next)) => {
            if first.kind.code() == Kind::Ellipsis.code() {
                Ok((made, next))
            } else {
                Err(Refusal::Misfit(T::is_begun_by(first.kind), tokens))
            }
        }
        None => Err(Refusal::Misfit(false, tokens)),
    }
}
