//! How a statement is read.
ghost use Rattle.std.specs.Prelude.{◌≡◌, ◌<◌, ◌^◌, true, length, drop, option_map};
ghost use Rattle.std.specs.Option.{SomeIff};
ghost use Rattle.std.specs.Str.{all_ascii_digits};
ghost use Rattle.std.specs.Str.Parse.{digits_value};
ghost use Rattle.first_script.specs.Statements as spec;

use crate::statement::Statement;

/// The statement that a line spells, if it spells one.
pub fn statement_of(line: &[u8]) -> Option<Statement>
    ensures { result ≡ spec.statement_of line.now }
{
    if let Some(statement) = insert_of(line) {
        return Some(statement);
    }
    go_of(line)
}

#[tactic(auto, unfolding(crate::specs::Statements::insert_of))]
fn insert_of(line: &[u8]) -> Option<Statement>
    ensures { result ≡ spec.insert_of line.now }
{
    let (src, rest) = integer_behind(b"INSERT EDGE follow(degree) VALUES ", line)?;
    let (dst, rest) = integer_behind(b"->", rest)?;
    let (degree, rest) = integer_behind(b":(", rest)?;
    if rest == b")".as_slice() {
        Some(Statement::Insert { src, dst, degree })
    } else {
        None
    }
}

#[tactic(auto, unfolding(crate::specs::Statements::go_of))]
fn go_of(line: &[u8]) -> Option<Statement>
    ensures { result ≡ spec.go_of line.now }
{
    let (vid, rest) = integer_behind(b"GO FROM ", line)?;
    if rest == b" OVER follow YIELD dst(edge), follow.degree".as_slice() {
        Some(Statement::Out(vid))
    } else if rest == b" OVER follow REVERSELY YIELD src(edge), follow.degree".as_slice() {
        Some(Statement::In(vid))
    } else {
        None
    }
}

#[tactic(auto, unfolding(crate::specs::Statements::integer_behind))]
fn integer_behind<'a>(text: &[u8], bytes: &'a [u8]) -> Option<(i64, &'a [u8])>
    ensures { option_map (λ found. (found.0, found.1.now)) result ≡ spec.integer_behind text.now bytes.now }
{
    integer_at(behind(text, bytes)?)
}

#[tactic(auto, unfolding(crate::specs::Statements::behind))]
fn behind<'a>(text: &[u8], bytes: &'a [u8]) -> Option<&'a [u8]>
    ensures { option_map (λ rest. rest.now) result ≡ spec.behind text.now bytes.now }
{
    if bytes.starts_with(text) {
        Some(&bytes[text.len()..])
    } else {
        None
    }
}

#[tactic(auto, unfolding(crate::specs::Statements::integer_at))]
fn integer_at(bytes: &[u8]) -> Option<(i64, &[u8])>
    ensures { option_map (λ found. (found.0, found.1.now)) result ≡ spec.integer_at bytes.now }
{
    match behind(b"-", bytes) {
        Some(unsigned) => {
            let (digits, rest) = digits_at(unsigned);
            Some((negative_of(digits)?, rest))
        }
        None => {
            let (digits, rest) = digits_at(bytes);
            Some((natural_of(digits)?, rest))
        }
    }
}

fn negative_of(digits: &[u8]) -> Option<i64>
    requires { all_ascii_digits digits.now ≡ true }
    ensures { result ≡ spec.negative_of digits.now }
{
    let value = value_of(digits)?;
    if value < 1 << 63 {
        Some(-(value as i64))
    } else if value == 1 << 63 {
        Some(i64::MIN)
    } else {
        None
    }
}

fn natural_of(digits: &[u8]) -> Option<i64>
    requires { all_ascii_digits digits.now ≡ true }
    ensures { result ≡ spec.natural_of digits.now }
{
    let value = value_of(digits)?;
    if value < 1 << 63 {
        Some(value as i64)
    } else {
        None
    }
}

fn value_of(digits: &[u8]) -> Option<u64>
    requires { all_ascii_digits digits.now ≡ true }
    ensures { SomeIff result ((0 < length digits.now) × (digits_value 10 digits.now < 2 ^ 64)) (digits_value 10 digits.now) }
{
    let Ok(text) = str::from_utf8(digits) else {
        unreachable!();
    };
    text.parse::<u64>().ok()
}

fn digits_at(bytes: &[u8]) -> (&[u8], &[u8])
    ensures digits { result.0.now ≡ spec.digits_at bytes.now }
    ensures rest { result.1.now ≡ drop (length (spec.digits_at bytes.now)) bytes.now }
    ensures all { all_ascii_digits result.0.now ≡ true }
{
    bytes.split_at(digits_len(bytes))
}

fn digits_len(bytes: &[u8]) -> usize
    ensures { result ≡ length (spec.digits_at bytes.now) }
{
    bytes.iter().take_while(|b| b.is_ascii_digit()).count()
}
