ghost use Rattle.std.specs.Prelude.{◌≡◌, ◌<◌, ◌∷◌, [], List, ℕ, length, MatchOption, IfSome};
ghost use Rattle.rt_lines.specs.Lines.{is_passed_over, lines_of};
ghost use Rattle.rt_wal.specs.Records.{without_last};

/// A line without a CR at its end.
fn without_cr(line: &[u8]) -> &[u8]
    ensures { result.now ≡ without_last 13 line.now }
{
    match line {
        [front @ .., b'\r'] => front,
        _ => line,
    }
}

/// The first line of a text, and the lines behind it; None where there is none.
pub fn first_line(text: &[u8]) -> Option<(&[u8], &[u8])>
    ensures lines { MatchOption result (lines_of text.now ≡ [])
        (λ found. lines_of text.now ≡ found.0.now ∷ lines_of found.1.now) }
    ensures shorter { IfSome result (λ found. length found.1.now < length text.now) }
{
    let mut at = 0;
    while at < text.len() {
        if text[at] == b'\n' {
            return Some((without_cr(&text[..at]), &text[at + 1..]));
        }
        at += 1;
    }
    if text.is_empty() {
        None
    } else {
        Some((text, &text[text.len()..]))
    }
}

/// Whether a line is empty or a remark.
pub fn is_passed_over(line: &[u8]) -> bool
    ensures { result ≡ is_passed_over line.now }
{
    match line {
        [] => true,
        [first, ..] => *first == b'#',
    }
}
