ghost use Rattle.std.specs.Prelude.{◌≡◌, MatchOption, None, Some};
ghost use Rattle.rt_token.specs.Parts.{parts_of, signed_bytes};
ghost use Rattle.rt_token.specs.Lent.{lent, IsFirstDot};

/// A token's three parts, as they stand in it.
#[derive(Clone, Copy)]
pub struct TokenParts<'a> {
    pub head: &'a [u8],
    pub body: &'a [u8],
    pub tag: &'a [u8],
    /// What the tag signs: the first two parts with their dot.
    pub signed: &'a [u8],
}

fn first_dot(bytes: &[u8]) -> Option<usize>
    ensures { IsFirstDot bytes.now result }
{
    for (at, byte) in bytes.iter().enumerate() {
        if *byte == b'.' {
            return Some(at);
        }
    }
    None
}

/// The three parts; None where there are more or fewer than two dots.
pub fn cut(token: &[u8]) -> Option<TokenParts<'_>>
    ensures { MatchOption result (parts_of token.now ≡ None)
        (λ p. (parts_of token.now ≡ Some (lent p)) × (p.signed.now ≡ signed_bytes (lent p))) }
{
    let first = first_dot(token)?;
    let rest = &token[first + 1..];
    let second = first_dot(rest)?;
    let tag = &rest[second + 1..];
    match first_dot(tag) {
        Some(_) => None,
        None => Some(TokenParts {
            head: &token[..first],
            body: &rest[..second],
            tag,
            signed: &token[..first + 1 + second],
        }),
    }
}
