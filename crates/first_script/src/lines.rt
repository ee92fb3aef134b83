//! The lines of a script.
ghost use Rattle.std.specs.Prelude.{◌≡◌, ◌==◌, ◌<◌, [], ◌∷◌, length, position, IfSome, IfNone};
ghost use Rattle.first_script.specs.Lines.{lines, whole_lines};

/// The first line, without its LF, and what stands behind it; none where there is no byte.
pub fn next_line(rest: &[u8]) -> Option<(&[u8], &[u8])>
    ensures found { IfSome result (λ next. lines rest.now ≡ next.0.now ∷ lines next.1.now) }
    ensures shorter { IfSome result (λ next. length next.1.now < length rest.now) }
    ensures none { IfNone result (rest.now ≡ []) }
{
    match next_whole_line(rest) {
        Some(next) => Some(next),
        None if rest.is_empty() => None,
        None => Some((rest, &[])),
    }
}

/// The first line that an LF ends, without the LF, and what stands behind it; none where no LF is left.
pub fn next_whole_line(rest: &[u8]) -> Option<(&[u8], &[u8])>
    ensures found { IfSome result (λ next. whole_lines rest.now ≡ next.0.now ∷ whole_lines next.1.now) }
    ensures line { IfSome result (λ next. lines rest.now ≡ next.0.now ∷ lines next.1.now) }
    ensures shorter { IfSome result (λ next. length next.1.now < length rest.now) }
    ensures none { IfNone result (whole_lines rest.now ≡ []) }
{
    let end = newline_at(rest)?;
    Some((&rest[..end], &rest[end + 1..]))
}

fn newline_at(rest: &[u8]) -> Option<usize>
    ensures first { result ≡ position (λ b. b == 10) rest.now }
    ensures bound { IfSome result (λ end. end < length rest.now) }
{
    rest.iter().position(|b| *b == b'\n')
}
