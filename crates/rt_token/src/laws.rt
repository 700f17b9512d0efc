//! Laws of tokens, each the contract of a function with an empty body.

ghost use Rattle.std.specs.Prelude.{◌≡◌, ◌↔◌, ℕ, List, Some};
ghost use Rattle.base64.specs.GeneralPurpose.{IsBytes};
ghost use Rattle.rt_token.specs.Parts.{bytes_of, part_of};
ghost use Rattle.rt_token.specs.Tokens.{claims_in_token, claims_in_payload, signed_token};

/// A part of a token has the bytes of which it is the base64url text, and no others; so bytes have one spelling.
pub fn one_spelling()
    ensures { (part bytes : List ℕ) → IsBytes part → IsBytes bytes → (bytes_of part ≡ Some bytes) ↔ (part ≡ part_of bytes) }
{}

/// A token that is signed passes under the same secret exactly where its claims pass the tests that don't ask who signed
/// them, with the same claims or the same refusal.
pub fn signed_passes()
    ensures { (secret claims : List ℕ) (seconds : ℕ) → IsBytes claims
        → claims_in_token secret (signed_token secret claims) seconds ≡ claims_in_payload claims seconds }
{}
