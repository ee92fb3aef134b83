//! Texts in quotes.
ghost use Rattle.std.specs.Prelude.{◌≡◌, ◌≤◌, length, false};
ghost use Rattle.ngql_lex.specs.Texts as spec;

/// How a text ends.
#[derive(Clone, Copy)]
pub enum Ending {
    /// With its quote, so many bytes behind its first one.
    Closed(usize),
    /// It can't be read: another escape, or no quote before the line's end.
    Unread,
    /// A byte isn't UTF-8, so many behind its first quote.
    Broken(usize),
}

/// Whether the byte may stand behind a backslash.
fn is_escape(byte: u8) -> bool
    ensures { result ≡ spec.is_escape byte }
{
    byte == b'"' || byte == b'\'' || byte == b'\\' || byte == b'n' || byte == b't'
}

/// How the text ends whose first quote stands before the bytes, of which the first `good` are UTF-8.
pub fn ending_of(quote: u8, good: usize, bytes: &[u8]) -> Ending
    requires { good ≤ length bytes.now }
    ensures is { result ≡ spec.ending quote false good bytes.now }
    ensures within { spec.IsWithin result (length bytes.now) }
{
    let mut escaped = false;
    for at in 0..good {
        let byte = bytes[at];
        if escaped {
            if !is_escape(byte) {
                return Ending::Unread;
            }
            escaped = false;
        } else {
            if byte == quote {
                return Ending::Closed(at + 1);
            }
            escaped = byte == b'\\';
        }
    }
    if escaped || good == bytes.len() {
        return Ending::Unread;
    }
    Ending::Broken(good)
}
