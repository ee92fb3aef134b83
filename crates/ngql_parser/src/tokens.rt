//! The tokens of a line as the grammar sees them.
ghost use Rattle.std.specs.Prelude.{◌≡◌, ◌++◌, IfOk, OnOk};
ghost use Rattle.ngql_parser.specs.Tokens as spec;

use crate::kind::Kind;
use crate::placed::{behind_kind, client_kind, is_kind, own_kind, placed_kind, value_of, word_of};
use crate::seen::Seen;
use crate::text::{inner, unescaped};
use crate::token::Token;
use lists::{Listed, NoMemory, Text};
use ngql_lex::{Token as Lexed, TokenKind};
use std::alloc::Global;

/// The name that a word spells.
fn name_in(word: &[u8]) -> &[u8]
    ensures { result.now ≡ spec.name_in word.now }
{
    match word.first() {
        Some(b'`') => inner(word),
        _ => word,
    }
}

/// The name or the text that a token spells. Refused for want of memory alone.
fn text_by(alloc: Global, kind: TokenKind, word: &[u8]) -> Result<Text, NoMemory>
    ensures { IfOk result (λ text. text ≡ spec.text_by kind word.now) }
{
    match kind {
        TokenKind::Name => Listed::from_slice(alloc, name_in(word)),
        TokenKind::Words => unescaped(alloc, inner(word)),
        _ => Ok(Listed::new(alloc)),
    }
}

/// The kind of a token whose text is known.
fn sized_kind(kind: Kind, text: &Text) -> Kind
    ensures { result ≡ spec.sized_kind kind text.now }
{
    if is_kind(kind, Kind::Text) && text.len() > 256 {
        return Kind::LongText;
    }
    kind
}

/// A token of this kind. Refused for want of memory alone.
fn token_of(alloc: Global, line: &[u8], kind: Kind, token: &Lexed) -> Result<Token, NoMemory>
    requires { spec.IsPlaced token.now }
    ensures { IfOk result (λ made. made ≡ spec.token_of line.now kind token.now) }
{
    let text = text_by(alloc, token.kind, word_of(line, token))?;
    Ok(Token {
        kind: sized_kind(kind, &text),
        number: value_of(line, token),
        text,
        at: token.from + 1,
    })
}

/// Puts the tokens of a statement at the end. Refused for want of memory alone.
fn add_statement(
    alloc: Global,
    version: u8,
    line: &[u8],
    tokens: &[Lexed],
    made: &mut Listed<Token>,
) -> Result<(), NoMemory>
    requires { spec.ArePlaced tokens.now }
    ensures { OnOk result (made.new ≡ made.old ++ spec.tokens_from version line.now spec.none_seen tokens.now) }
{
    let mut seen = Seen {
        space: false,
        parts: false,
        factor: false,
        ids: false,
    };
    for at in 0..tokens.len() {
        let rest = &tokens[at + 1..];
        let own = own_kind(line, &tokens[at]);
        let kind = placed_kind(version, line, seen, own, rest);
        made.push(token_of(alloc, line, kind, &tokens[at])?)?;
        seen = behind_kind(line, own, seen, rest);
    }
    Ok(())
}

/// Whether a space stands behind so many bytes of the line.
fn is_space_at(line: &[u8], at: u32) -> bool
    ensures { result ≡ spec.is_space_at line.now at }
{
    matches!(line.get(at as usize), Some(b' '))
}

/// Puts the tokens behind an `@` at the end. Refused for want of memory alone.
fn add_client(
    alloc: Global,
    version: u8,
    line: &[u8],
    tokens: &[Lexed],
    made: &mut Listed<Token>,
) -> Result<(), NoMemory>
    requires { spec.ArePlaced tokens.now }
    ensures { OnOk result (made.new ≡ made.old ++ spec.client_from version line.now tokens.now) }
{
    let Some((first, rest)) = tokens.split_first() else {
        return Ok(());
    };
    made.push(token_of(alloc, line, client_kind(line, first), first)?)?;
    if !is_space_at(line, first.upto) {
        return add_statement(alloc, version, line, rest, made);
    }
    made.push(Token {
        kind: Kind::Blank,
        number: 0,
        text: Listed::new(alloc),
        at: first.upto + 1,
    })?;
    add_statement(alloc, version, line, rest, made)
}

/// The tokens of a line, from those that it has. Refused for want of memory alone.
pub fn tokens_of(
    alloc: Global,
    version: u8,
    line: &[u8],
    tokens: &[Lexed],
) -> Result<Listed<Token>, NoMemory>
    requires { spec.ArePlaced tokens.now }
    ensures { IfOk result (λ made. made ≡ spec.line_from version line.now tokens.now) }
{
    let mut made = Listed::new(alloc);
    let Some((first, rest)) = tokens.split_first() else {
        return Ok(made);
    };
    if !is_kind(own_kind(line, first), Kind::At) {
        add_statement(alloc, version, line, tokens, &mut made)?;
        return Ok(made);
    }
    made.push(token_of(alloc, line, Kind::At, first)?)?;
    add_client(alloc, version, line, rest, &mut made)?;
    Ok(made)
}
