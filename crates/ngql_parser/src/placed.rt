//! Kinds of tokens, by what stands before and behind them.
ghost use Rattle.std.specs.Prelude.{◌≡◌, drop};
ghost use Rattle.ngql_parser.specs.Tokens as spec;

use crate::kind::Kind;
use crate::number::number_of;
use crate::seen::Seen;
use crate::words::{keyword_kind, mark_kind, word_kind};
use ngql_lex::{Token as Lexed, TokenKind};

/// The bytes of a token.
pub fn word_of<'a>(line: &'a [u8], token: &Lexed) -> &'a [u8]
    ensures { result.now ≡ spec.word_of line.now token.now }
{
    let from = token.from as usize;
    if from > line.len() {
        return &[];
    }
    let bytes = &line[from..];
    let len = (token.upto as usize).saturating_sub(from);
    if len > bytes.len() {
        return bytes;
    }
    &bytes[..len]
}

/// The number that a token spells, where it is a whole number that fits, or 0.
pub fn value_of(line: &[u8], token: &Lexed) -> i64
    ensures { result ≡ spec.value_of line.now token.now }
{
    match token.kind {
        TokenKind::Int => number_of(word_of(line, token)).unwrap_or(0),
        _ => 0,
    }
}

/// Whether a number is from one up to another.
fn is_from_to(low: u32, high: u32, number: i64) -> bool
    ensures { result ≡ spec.is_from_to low high number }
{
    number >= low as i64 && number <= high as i64
}

fn int_kind(number: Option<i64>) -> Kind
    ensures { result ≡ spec.int_kind number }
{
    match number {
        None => Kind::WideInt,
        Some(number) if is_from_to(0, 8, number) => Kind::SmallInt,
        Some(_) => Kind::Int,
    }
}

/// The kind of a token by itself.
pub fn own_kind(line: &[u8], token: &Lexed) -> Kind
    ensures { result ≡ spec.own_kind line.now token.now }
{
    let word = word_of(line, token);
    match token.kind {
        TokenKind::Keyword => keyword_kind(word).unwrap_or(Kind::Stray),
        TokenKind::Name => word_kind(word).unwrap_or(Kind::Name),
        TokenKind::Int => int_kind(number_of(word)),
        TokenKind::Words => Kind::Text,
        TokenKind::Mark => mark_kind(word).unwrap_or(Kind::Stray),
    }
}

/// The tokens behind so many.
fn behind(rest: &[Lexed], count: usize) -> &[Lexed]
    ensures { result.now ≡ drop count rest.now }
{
    if count > rest.len() {
        return &[];
    }
    &rest[count..]
}

/// The kind of the next token.
pub fn next_kind(line: &[u8], rest: &[Lexed]) -> Kind
    ensures { result ≡ spec.next_kind line.now rest.now }
{
    match rest.split_first() {
        Some((first, _)) => own_kind(line, first),
        None => Kind::Ellipsis,
    }
}

/// The number that the next token spells, or 0.
fn next_value(line: &[u8], rest: &[Lexed]) -> i64
    ensures { result ≡ spec.next_value line.now rest.now }
{
    match rest.split_first() {
        Some((first, _)) => value_of(line, first),
        None => 0,
    }
}

pub fn is_kind(kind: Kind, other: Kind) -> bool
    ensures { result ≡ spec.is_kind kind other }
{
    kind.code() == other.code()
}

pub fn is_int(kind: Kind) -> bool
    ensures { result ≡ spec.is_int kind }
{
    matches!(kind, Kind::SmallInt | Kind::Int | Kind::WideInt)
}

fn is_callable(kind: Kind) -> bool
    ensures { result ≡ spec.is_callable kind }
{
    matches!(
        kind,
        Kind::SrcCall
            | Kind::DstCall
            | Kind::RankCall
            | Kind::TypeCall
            | Kind::IdCall
            | Kind::PropsCall
    )
}

fn called(word: Kind, inside: Kind) -> Kind
    ensures { result ≡ spec.called word inside }
{
    match (word, inside) {
        (Kind::PropsCall, Kind::Edge) => Kind::EdgePropsCall,
        (Kind::PropsCall, Kind::Vertex) => Kind::VertexPropsCall,
        _ => word,
    }
}

/// What a word that may be called is.
fn call_kind(line: &[u8], word: Kind, rest: &[Lexed]) -> Kind
    ensures { result ≡ spec.call_kind line.now word rest.now }
{
    if is_kind(next_kind(line, rest), Kind::Open) {
        called(word, next_kind(line, behind(rest, 1)))
    } else {
        Kind::Name
    }
}

/// What a `~` is.
fn tilde_kind(next: Kind) -> Kind
    ensures { result ≡ spec.tilde_kind next }
{
    match next {
        Kind::Insert | Kind::Delete | Kind::Fetch | Kind::Go => Kind::Tilde,
        _ => Kind::Stray,
    }
}

/// Whether a `=` stands behind a word.
fn is_set(line: &[u8], rest: &[Lexed]) -> bool
    ensures { result ≡ spec.is_set line.now rest.now }
{
    is_kind(next_kind(line, rest), Kind::Equals)
}

/// Whether a number outside those from one up to another stands there.
fn is_outside(line: &[u8], low: u32, high: u32, rest: &[Lexed]) -> bool
    ensures { result ≡ spec.is_outside line.now (spec.is_from_to low high) rest.now }
{
    is_int(next_kind(line, rest)) && !is_from_to(low, high, next_value(line, rest))
}

/// Whether a number stands there that is no number of replicas.
fn is_no_factor(line: &[u8], rest: &[Lexed]) -> bool
    ensures { result ≡ spec.is_outside line.now spec.is_factor rest.now }
{
    is_int(next_kind(line, rest)) && !matches!(next_value(line, rest), 1 | 3 | 5)
}

/// Whether texts stand there that no file of the version has as ids.
fn are_bad_texts(version: u8, line: &[u8], rest: &[Lexed]) -> bool
    ensures { result ≡ spec.are_bad_texts version line.now rest.now }
{
    if !is_kind(next_kind(line, rest), Kind::FixedWord) {
        return false;
    }
    if version == 1 {
        return true;
    }
    is_kind(next_kind(line, behind(rest, 1)), Kind::Open)
        && is_outside(line, 1, 32, behind(rest, 2))
}

/// Whether an option is refused: its word stands there, so many of the tokens behind it.
fn option_kind(version: u8, line: &[u8], seen: Seen, kind: Kind, rest: &[Lexed]) -> Kind
    ensures { result ≡ spec.option_kind version line.now seen kind rest.now }
{
    if !seen.space {
        return kind;
    }
    let set = is_set(line, rest);
    let value = behind(rest, 1);
    match kind {
        Kind::PartsWord if seen.parts || (set && is_outside(line, 1, 64, value)) => Kind::BadParts,
        Kind::FactorWord if seen.factor || (set && is_no_factor(line, value)) => Kind::BadFactor,
        Kind::IdsWord if seen.ids || (set && are_bad_texts(version, line, value)) => Kind::BadIds,
        _ => kind,
    }
}

/// The kind of a token by what stands before and behind it.
pub fn placed_kind(version: u8, line: &[u8], seen: Seen, kind: Kind, rest: &[Lexed]) -> Kind
    ensures { result ≡ spec.placed_kind version line.now seen kind rest.now }
{
    if is_callable(kind) {
        return call_kind(line, kind, rest);
    }
    if is_kind(kind, Kind::Tilde) {
        return tilde_kind(next_kind(line, rest));
    }
    option_kind(version, line, seen, kind, rest)
}

/// What stood before the token behind this one.
pub fn behind_kind(line: &[u8], kind: Kind, seen: Seen, rest: &[Lexed]) -> Seen
    ensures { result ≡ spec.behind_kind kind (spec.is_set line.now rest.now) seen }
{
    let set = is_set(line, rest);
    match kind {
        Kind::Space => Seen {
            space: true,
            ..seen
        },
        Kind::PartsWord if set => Seen {
            parts: true,
            ..seen
        },
        Kind::FactorWord if set => Seen {
            factor: true,
            ..seen
        },
        Kind::IdsWord if set => Seen { ids: true, ..seen },
        _ => seen,
    }
}

/// The kind of the token behind an `@` at the head of a line.
pub fn client_kind(line: &[u8], token: &Lexed) -> Kind
    ensures { result ≡ spec.client_kind line.now token.now }
{
    let kind = own_kind(line, token);
    let is_good = is_from_to(1, 64, value_of(line, token));
    let starts_with_zero = matches!(word_of(line, token).first(), Some(b'0'));
    if is_int(kind) && is_good && !starts_with_zero {
        return Kind::Client;
    }
    kind
}
