ghost use Rattle.std.specs.Prelude.{◌≡◌};
ghost use Rattle.std.specs.Str.{bytes_eq};

/// Whether a tag is the wanted one. It looks at all bytes before it answers, wherever they differ.
pub fn is_same_tag(tag: &[u8], wanted: &[u8]) -> bool
    ensures { result ≡ bytes_eq tag.now wanted.now }
{
    let mut same = tag.len() == wanted.len();
    for (a, b) in tag.iter().zip(wanted) {
        same &= *a == *b;
    }
    same
}
