//! The words of a line.
ghost use Rattle.std.specs.Prelude.{◌≡◌, ◌≤◌, ◌∷◌, length};
ghost use Rattle.fault_schedule.specs.Words as spec;

/// What stands in the line, without the CR that it ends in and then without the spaces that it ends in.
pub fn text_of(line: &[u8]) -> &[u8]
    ensures { result.now ≡ spec.text_of line.now }
{
    without_spaces(without_cr(line))
}

fn without_cr(line: &[u8]) -> &[u8]
    ensures { result.now ≡ spec.without_cr line.now }
{
    let end = line.len();
    if end > 0 && line[end - 1] == b'\r' {
        return &line[..end - 1];
    }
    line
}

fn without_spaces(line: &[u8]) -> &[u8]
    ensures { result.now ≡ spec.without_spaces line.now }
{
    let mut end = line.len();
    while end > 0 && line[end - 1] == b' ' {
        end -= 1;
    }
    &line[..end]
}

/// The first word, and what stands behind the space that ends it, where there is one.
pub fn first_word(text: &[u8]) -> (&[u8], Option<&[u8]>)
    ensures { spec.words text.now ≡ result.0.now ∷ spec.words_behind result.1 }
{
    let len = word_len(text);
    if len == text.len() {
        (text, None)
    } else {
        (&text[..len], Some(&text[len + 1..]))
    }
}

/// How many bytes stand before the first space.
fn word_len(text: &[u8]) -> usize
    ensures is { result ≡ length (spec.first text.now) }
    ensures within { result ≤ length text.now }
{
    text.iter().take_while(|byte| **byte != b' ').count()
}
