//! The token at the front of some bytes.
ghost use Rattle.std.specs.Prelude.{◌≡◌, ◌+◌, ◌≤◌, ◌<◌, ◌^◌, length, false};
ghost use Rattle.ngql_lex.specs.Front as spec;
ghost use Rattle.ngql_lex.specs.Texts.{ending as spec_ending};

use crate::bytes::{digits_len, is_word_start, word_len};
use crate::keyword::is_keyword;
use crate::text::{Ending, ending_of};
use crate::token::TokenKind;

/// The token at the front of some bytes.
#[derive(Clone, Copy)]
pub enum Front {
    /// A token of this kind, with so many bytes.
    Found(TokenKind, usize),
    /// No token; the byte that fits none stands so many bytes on.
    Bad(usize),
}

fn word_front(bytes: &[u8]) -> Front
    ensures { result ≡ spec.word_front bytes.now }
{
    let len = word_len(bytes);
    if is_keyword(&bytes[..len]) {
        Front::Found(TokenKind::Keyword, len)
    } else {
        Front::Found(TokenKind::Name, len)
    }
}

fn quoted_front(bytes: &[u8]) -> Front
    requires { length bytes.now < 2 ^ 32 }
    ensures { result ≡ spec.quoted_front bytes.now }
{
    let len = word_len(bytes);
    match bytes.first() {
        Some(first) if is_word_start(*first) => {}
        _ => return Front::Bad(0),
    }
    match bytes[len..].first() {
        Some(b'`') => Front::Found(TokenKind::Name, len + 2),
        _ => Front::Bad(0),
    }
}

fn dash_front(bytes: &[u8]) -> Front
    requires { length bytes.now < 2 ^ 32 }
    ensures { result ≡ spec.dash_front bytes.now }
{
    match bytes.first() {
        Some(b) if b.is_ascii_digit() => Front::Found(TokenKind::Int, digits_len(bytes) + 1),
        Some(b'>') => Front::Found(TokenKind::Mark, 2),
        _ => Front::Bad(0),
    }
}

fn text_front(quote: u8, good: usize, bytes: &[u8]) -> Front
    requires short { length bytes.now < 2 ^ 32 }
    requires front { good ≤ length bytes.now }
    ensures is { result ≡ spec.text_front (spec_ending quote false good bytes.now) }
    ensures within { spec.IsFrontWithin result (length bytes.now + 1) }
{
    match ending_of(quote, good, bytes) {
        Ending::Closed(n) => Front::Found(TokenKind::Words, n + 1),
        Ending::Unread => Front::Bad(0),
        Ending::Broken(n) => Front::Bad(n + 1),
    }
}

/// Whether the byte is a mark by itself.
fn is_mark(byte: u8) -> bool
    ensures { result ≡ spec.is_mark byte }
{
    matches!(
        byte,
        b'(' | b')' | b',' | b'.' | b':' | b';' | b'*' | b'@' | b'~'
    )
}

/// Whether the byte is a mark by itself and with a `=` behind it.
fn is_open_mark(byte: u8) -> bool
    ensures { result ≡ spec.is_open_mark byte }
{
    byte == b'=' || byte == b'<' || byte == b'>'
}

fn mark_front(byte: u8, bytes: &[u8]) -> Front
    ensures { result ≡ spec.mark_front byte bytes.now }
{
    if is_mark(byte) {
        return Front::Found(TokenKind::Mark, 1);
    }
    let is_double = match bytes.first() {
        Some(next) => *next == b'=',
        None => false,
    };
    if is_double && (is_open_mark(byte) || byte == b'!') {
        return Front::Found(TokenKind::Mark, 2);
    }
    if is_open_mark(byte) {
        return Front::Found(TokenKind::Mark, 1);
    }
    Front::Bad(0)
}

/// The token at the front of the bytes, which don't begin with a blank; the first `good` of them are UTF-8.
pub fn front_of(good: usize, bytes: &[u8]) -> Front
    requires some { 0 < length bytes.now }
    requires short { length bytes.now < 2 ^ 32 }
    requires front { good ≤ length bytes.now }
    ensures is { result ≡ spec.front good bytes.now }
    ensures within { spec.IsFrontWithin result (length bytes.now) }
{
    let byte = bytes[0];
    let rest = &bytes[1..];
    if is_word_start(byte) {
        return word_front(bytes);
    }
    if byte.is_ascii_digit() {
        return Front::Found(TokenKind::Int, digits_len(bytes));
    }
    match byte {
        b'-' => dash_front(rest),
        b'`' => quoted_front(rest),
        b'"' | b'\'' => text_front(byte, good.saturating_sub(1), rest),
        _ => mark_front(byte, rest),
    }
}
