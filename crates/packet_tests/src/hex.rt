//! Bytes that are written in hexadecimal digits.
use lists::{Bytes, NoMemory};
use std::alloc::Global;

/// The value of a digit.
fn digit(letter: u8) -> u8 {
    if letter < b'a' {
        letter.wrapping_sub(b'0')
    } else {
        letter - b'a' + 10
    }
}

/// The bytes of these digits, two a byte; blanks part them.
pub fn bytes_of(alloc: Global, digits: &[u8]) -> Result<Bytes, NoMemory> {
    let mut bytes = Bytes::new(alloc);
    let mut high: Option<u8> = None;
    for letter in digits {
        if *letter == b' ' {
            continue;
        }
        match high {
            None => high = Some(digit(*letter)),
            Some(first) => {
                bytes.push((first << 4) | digit(*letter))?;
                high = None;
            }
        }
    }
    Ok(bytes)
}
