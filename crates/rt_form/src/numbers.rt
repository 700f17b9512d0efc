ghost use Rattle.std.specs.Prelude.{◌≡◌, ℕ, ◌^◌, ◌<◌, MatchOption};
ghost use Rattle.std.specs.Fmt.{decimal};

use itoa::Buffer;

/// The number that a text writes in decimal digits without a leading zero, None where it writes
/// none below 2^32.
pub fn number_of(text: &str) -> Option<u32>
    ensures { MatchOption result ((n : ℕ) → n < 2 ^ 32 → text.now ≡ decimal n → ⊥)
        (λ n. text.now ≡ decimal n) }
{
    match text.parse::<u32>() {
        Ok(number) => {
            if Buffer::new().format(number) == text {
                Some(number)
            } else {
                None
            }
        }
        Err(_) => None,
    }
}
