//! How a line of the corpus spells its bytes.
use crate::page::Page;

/// What was read of a `%`.
#[derive(Clone, Copy)]
enum State {
    /// None stands open.
    Plain,
    /// `%`
    Open,
    /// `%` and a digit of this value.
    Digit(u8),
    /// `%{` and these digits.
    Count(u16),
    /// `%{65000}`
    Times(u16),
}

/// The value of a hexadecimal digit.
fn digit(byte: u8) -> u8 {
    match byte {
        b'0'..=b'9' => byte - b'0',
        b'A'..=b'F' => byte - b'A' + 10,
        _ => 0,
    }
}

/// Puts the bytes that a line spells at the end: `%0D` is the byte 0D, `%{9}x` is nine of `x`, and each other byte is itself.
pub fn put_spelled(page: &mut Page, line: &[u8]) {
    let mut state = State::Plain;
    for byte in line {
        state = state.behind(page, *byte);
    }
}

impl State {
    fn behind(self, page: &mut Page, byte: u8) -> State {
        match self {
            State::Plain => {
                if byte == b'%' {
                    return State::Open;
                }
                page.put(&[byte]);
                State::Plain
            }
            State::Open => {
                if byte == b'{' {
                    return State::Count(0);
                }
                State::Digit(digit(byte))
            }
            State::Digit(high) => {
                page.put(&[high.wrapping_mul(16).wrapping_add(digit(byte))]);
                State::Plain
            }
            State::Count(count) => {
                if byte == b'}' {
                    return State::Times(count);
                }
                State::Count(count.saturating_mul(10).saturating_add(digit(byte) as u16))
            }
            State::Times(count) => {
                for _ in 0..count {
                    page.put(&[byte]);
                }
                State::Plain
            }
        }
    }
}
