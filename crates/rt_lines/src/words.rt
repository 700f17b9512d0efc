ghost use Rattle.std.specs.Prelude.{◌≡◌, MatchOption, None, Some};
ghost use Rattle.rt_lines.specs.Words as spec;

use itoa::Buffer;

/// What stands before the first blank, and what behind it; None where there is none.
pub fn parted(text: &str) -> Option<(&str, &str)>
    ensures { MatchOption result (spec.parted text.now ≡ None)
        (λ parts. spec.parted text.now ≡ Some (parts.0.now, parts.1.now)) }
{
    text.split_once(' ')
}

/// The number below 2^64 that a text writes in decimal digits without a leading zero, None where
/// it writes none.
pub fn number_of(text: &str) -> Option<u64>
    ensures { result ≡ spec.number_in text.now }
{
    match text.parse::<u64>() {
        Ok(number) => {
            if Buffer::new().format(number) == text {
                Some(number)
            } else {
                None
            }
        }
        Err(_) => None,
    }
}
