//! Lines, from their bytes.
ghost use Rattle.std.specs.Prelude.{◌≡◌, ◌<◌, ◌^◌, ◌-◌, length, IfOk, IfErr};
ghost use Rattle.ngql_parser.specs.Kinds.{code};
ghost use Rattle.ngql_parser.specs.Promise as spec;
ghost use Rattle.ngql_syntax.specs.declared.statement.Line.{Line};

use crate::kind::Kind;
use crate::parse_refused::ParseRefused;
use crate::refusal::Refusal;
use crate::statement::read_line;
use crate::token::Token;
use crate::tokens::tokens_of;
use lists::Listed;
use ngql_lex::{LexRefused, lex, without_cr};
use ngql_syntax::Line;
use std::alloc::Global;

/// The line that the tokens spell, all of them.
fn read_tokens(alloc: Global, tokens: &[Token]) -> Result<Line, Refusal>
    ensures ok { IfOk result (λ l. spec.AreLine tokens.now l) }
    ensures only { (l : Line) → spec.AreLine tokens.now l → spec.IsThis l result }
    ensures misfit { IfErr result (λ e. spec.Refused tokens.now e) }
{
    match read_line(alloc, tokens.len() + 1, tokens) {
        Ok((line, rest)) => {
            if rest.is_empty() {
                Ok(line)
            } else {
                Err(Refusal::Misfit(false, rest))
            }
        }
        Err(e) => Err(e),
    }
}

/// The refusal for a token that the limits don't allow.
fn limit_by(of: Kind, at: u32) -> ParseRefused
    ensures { result ≡ spec.limit_by (code of) at }
{
    match of {
        Kind::WideInt => ParseRefused::NumberTooWide(at),
        Kind::BadParts | Kind::BadFactor | Kind::BadIds => ParseRefused::BadOption(at),
        _ => ParseRefused::TooMany(at),
    }
}

/// The refusal for a misfit. `end` is the place one past the last byte.
fn refused_at(of_limits: bool, rest: &[Token], end: u32) -> ParseRefused
    ensures { result ≡ spec.refused_at of_limits end rest.now }
{
    let Some((first, _)) = rest.split_first() else {
        return ParseRefused::Syntax(end);
    };
    if of_limits {
        return limit_by(first.kind, first.at);
    }
    ParseRefused::Syntax(first.at)
}

/// The tokens of the line as the grammar sees them.
fn tokens_in(alloc: Global, line: &[u8], version: u8) -> Result<Listed<Token>, ParseRefused>
    requires { length line.now < 2 ^ 32 - 1 }
    ensures ok { IfOk result (λ tokens. spec.AreTokensOf version line.now tokens) }
    ensures only { (t : spec.Tokens version line.now) → spec.AreAnswered (spec.tokens_in version line.now t) result }
    ensures bad { IfErr result (λ e. spec.Unlexed line.now e) }
{
    match lex(alloc, line) {
        Ok(tokens) => match tokens_of(alloc, version, without_cr(line), tokens.as_slice()) {
            Ok(made) => Ok(made),
            Err(_) => Err(ParseRefused::NoMemory),
        },
        Err(LexRefused::BadToken(at)) => Err(ParseRefused::BadToken(at)),
        Err(LexRefused::NoMemory) => Err(ParseRefused::NoMemory),
    }
}

/// The line that its bytes spell.
///
/// Refused at the first place where one of these holds, counted from 1: `BadToken` where no token begins; then `Syntax` where no line
/// goes on so, and `NumberTooWide`, `BadOption` and `TooMany` where lines would if a number could be wider, an option free, or
/// a list or a text longer. `version` is that of the files that are to be written, 1 or 2; version 1 has no texts as ids.
pub fn parse(alloc: Global, line: &[u8], version: u8) -> Result<Line, ParseRefused>
    requires { length line.now < 2 ^ 32 - 1 }
    // What is answered is spelled by the bytes.
    ensures ok { IfOk result (λ l. spec.Spells version line.now l) }
    // What they spell is answered, unless memory runs out.
    ensures only { (l : Line) → spec.Spells version line.now l → spec.IsAnswered l result }
    // A refusal names the first misfit, with its place.
    ensures misfit { IfErr result (λ e. spec.Says version line.now e) }
{
    let tokens = match tokens_in(alloc, line, version) {
        Ok(tokens) => tokens,
        Err(e) => return Err(e),
    };
    match read_tokens(alloc, tokens.as_slice()) {
        Ok(read) => Ok(read),
        Err(Refusal::Misfit(of_limits, rest)) => {
            Err(refused_at(of_limits, rest, without_cr(line).len() as u32 + 1))
        }
        Err(_) => Err(ParseRefused::NoMemory),
    }
}
