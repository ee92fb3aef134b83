//! The value of a text.
ghost use Rattle.std.specs.Prelude.{◌≡◌, false, IfOk};
ghost use Rattle.ngql_parser.specs.Texts as spec;

use lists::{Listed, NoMemory, Text};
use std::alloc::Global;

/// The byte that an escape stands for.
fn escape_value(byte: u8) -> u8
    ensures { result ≡ spec.escape_value byte }
{
    match byte {
        b'n' => b'\n',
        b't' => b'\t',
        _ => byte,
    }
}

/// What the bytes between the quotes stand for. Refused for want of memory alone.
pub fn unescaped(alloc: Global, bytes: &[u8]) -> Result<Text, NoMemory>
    ensures { IfOk result (λ text. text ≡ spec.unescaped false bytes.now) }
{
    let mut made = Listed::new(alloc);
    let mut escaped = false;
    for byte in bytes {
        if escaped {
            made.push(escape_value(*byte))?;
            escaped = false;
        } else if *byte == b'\\' {
            escaped = true;
        } else {
            made.push(*byte)?;
        }
    }
    Ok(made)
}

/// The word without its first and its last byte.
pub fn inner(word: &[u8]) -> &[u8]
    ensures { result.now ≡ spec.inner word.now }
{
    if word.len() < 2 {
        return &[];
    }
    &word[1..word.len() - 1]
}
