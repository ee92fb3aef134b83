//! Whole numbers.
ghost use Rattle.std.specs.Prelude.{◌≡◌, ◌^◌};
ghost use Rattle.ngql_parser.specs.Numbers as spec;

/// The number that digits write, where it is at most 2^63.
fn magnitude(digits: &[u8]) -> Option<u64>
    ensures { result ≡ spec.up_to (2 ^ 63) (spec.magnitude 0 digits.now) }
{
    let mut number: u128 = 0;
    for digit in digits {
        number = number * 10 + digit.saturating_sub(b'0') as u128;
        if number > 1 << 63 {
            return None;
        }
    }
    Some(number as u64)
}

fn negative(digits: &[u8]) -> Option<i64>
    ensures { result ≡ spec.negative_of (spec.up_to (2 ^ 63) (spec.magnitude 0 digits.now)) }
{
    let number = magnitude(digits)?;
    if number < 1 << 63 {
        Some(-(number as i64))
    } else {
        Some(i64::MIN)
    }
}

/// The whole number that a token spells, where it fits 64 bits.
pub fn number_of(word: &[u8]) -> Option<i64>
    ensures { result ≡ spec.number_of word.now }
{
    let (first, digits) = word.split_first()?;
    if *first == b'-' {
        return negative(digits);
    }
    let number = magnitude(word)?;
    if number < 1 << 63 {
        Some(number as i64)
    } else {
        None
    }
}
