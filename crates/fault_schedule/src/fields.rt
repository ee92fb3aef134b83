//! The fields behind a command.
ghost use Rattle.std.specs.Prelude.{◌≡◌, ◌≤◌, ◌<◌, ℕ, List, length, position, bytes_eq, IfSome};
ghost use Rattle.std.specs.Char.{is_ascii_digit};
ghost use Rattle.std.specs.List.{list_all};
ghost use denote.Ref.{Bor};
ghost use Rattle.std.specs.Option.{SomeIff};
ghost use Rattle.std.specs.Str.Parse.{digits_value};
ghost use Rattle.fault_schedule.specs.Fields as spec;

use itoa::Buffer;

/// The words of the kinds of packets, from kind 1 on.
const KINDS: [&[u8]; 14] = [
    b"request",
    b"answer",
    b"notleader",
    b"append",
    b"appended",
    b"vote",
    b"voted",
    b"now",
    b"remote",
    b"done",
    b"stale",
    b"fence",
    b"fenced",
    b"resume",
];

/// The number that the word is the decimal spelling of, where it is at most this great.
#[tactic(auto, unfolding(crate::specs::Fields::number))]
pub fn number(word: &[u8], most: u64) -> Option<u64>
    ensures is { result ≡ spec.number most word.now }
    ensures within { IfSome result (λ n. n ≤ most) }
{
    let value = value_of(word)?;
    let mut buffer = Buffer::new();
    if value <= most && buffer.format(value).as_bytes() == word {
        Some(value)
    } else {
        None
    }
}

/// The value of a word of digits, where it is below 2^64.
fn value_of(word: &[u8]) -> Option<u64>
    ensures { SomeIff result (spec.HasValue word.now) (digits_value 10 word.now) }
{
    if word.is_empty() || !are_digits(word) {
        return None;
    }
    let Ok(text) = str::from_utf8(word) else {
        unreachable!();
    };
    text.parse::<u64>().ok()
}

fn are_digits(word: &[u8]) -> bool
    ensures { result ≡ list_all is_ascii_digit word.now }
{
    word.iter().all(|byte| byte.is_ascii_digit())
}

/// A number of 32 bits.
#[tactic(auto, unfolding(crate::specs::Fields::small))]
pub fn small(word: &[u8]) -> Option<u32>
    ensures { result ≡ spec.small word.now }
{
    let value = number(word, u32::MAX as u64)?;
    Some(value as u32)
}

/// A number from 1 to so many.
#[tactic(auto, unfolding(crate::specs::Fields::counted))]
pub fn counted(word: &[u8], most: u32) -> Option<u32>
    ensures { result ≡ spec.counted most word.now }
{
    let value = number(word, most as u64)?;
    if value == 0 { None } else { Some(value as u32) }
}

/// The kind of packets that the word names.
#[tactic(auto, unfolding(crate::specs::Fields::kind))]
pub fn kind(word: &[u8]) -> Option<u8>
    ensures { result ≡ spec.kind word.now }
{
    let at = place_of(word, &KINDS)?;
    Some(at as u8 + 1)
}

/// The place of the word among others.
fn place_of(word: &[u8], known: &[&[u8]]) -> Option<usize>
    ensures is { result ≡ position (λ (other : Bor (List ℕ)). bytes_eq other.now word.now) known.now }
    ensures within { IfSome result (λ at. at < length known.now) }
{
    known.iter().position(|other| *other == word)
}
