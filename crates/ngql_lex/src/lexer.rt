//! The tokens of a line.
ghost use Rattle.std.specs.Prelude.{◌≡◌, ◌≤◌, ◌<◌, ◌^◌, ◌-◌, List, length, IfOk, IfErr};
ghost use Rattle.std.specs.Str.Lossy.{utf8_valid_len};
ghost use Rattle.ngql_lex.specs.Front.{IsFrontWithin};
ghost use Rattle.ngql_lex.specs.Lines as spec;
ghost use Rattle.ngql_lex.specs.declared.token.Token.{Token};

use crate::bytes::is_blank;
use crate::front::{Front, front_of};
use crate::refused::LexRefused;
use crate::token::{Token, Tokens};
use lists::Listed;
use std::alloc::Global;

/// The bytes of the line without the CR that it ends in.
pub fn without_cr(line: &[u8]) -> &[u8]
    ensures is { result.now ≡ spec.without_cr line.now }
    ensures shorter { length result.now ≤ length line.now }
{
    let end = line.len();
    if end > 0 && line[end - 1] == b'\r' {
        return &line[..end - 1];
    }
    line
}

/// How many bytes at the front of the line are UTF-8.
fn utf8_len(line: &[u8]) -> usize
    ensures is { result ≡ utf8_valid_len line.now }
    ensures within { result ≤ length line.now }
{
    match str::from_utf8(line) {
        Ok(_) => line.len(),
        Err(error) => error.valid_up_to(),
    }
}

/// The token that begins in the line behind so many bytes, where no blank stands; the first `good` bytes are UTF-8.
fn front_at(line: &[u8], good: usize, at: usize) -> Front
    requires inside { at < length line.now }
    requires short { length line.now < 2 ^ 32 }
    requires good { good ≡ utf8_valid_len line.now }
    requires front { good ≤ length line.now }
    ensures is { result ≡ spec.front_at line.now at }
    ensures within { IsFrontWithin result (length line.now - at) }
{
    front_of(good.saturating_sub(at), &line[at..])
}

/// The tokens of a line, in order, of which each is the longest that begins at its place.
///
/// Refused with `BadToken` at the first byte that begins none, counted from 1. In a text that is the first byte that isn't
/// UTF-8; another escape and a missing end make its quote the misfit.
pub fn lex(alloc: Global, line: &[u8]) -> Result<Tokens, LexRefused>
    requires { length line.now < 2 ^ 32 - 1 }
    // What is answered are the tokens of the line.
    ensures ok { IfOk result (λ tokens. spec.IsLexed (spec.without_cr line.now) tokens) }
    // The tokens of the line are answered, unless memory runs out.
    ensures only { (tokens : List Token) → spec.IsLexed (spec.without_cr line.now) tokens → spec.IsAnswered tokens result }
    // A refusal is at the first misfit.
    ensures bad { IfErr result (λ refused. spec.Refused (spec.without_cr line.now) refused) }
{
    let text = without_cr(line);
    let good = utf8_len(text);
    let mut tokens = Listed::new(alloc);
    let mut at = 0;
    while at < text.len() {
        if is_blank(text[at]) {
            at += 1;
        } else {
            match front_at(text, good, at) {
                Front::Found(kind, len) => {
                    let from = at as u32;
                    at += len;
                    let upto = at as u32;
                    tokens.push(Token { kind, from, upto })?;
                }
                Front::Bad(behind) => return Err(LexRefused::BadToken((at + behind + 1) as u32)),
            }
        }
    }
    Ok(tokens)
}
