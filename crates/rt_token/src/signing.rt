ghost use Rattle.std.specs.Prelude.{◌≡◌, ℕ, IfOk};
ghost use Rattle.rt_token.specs.Tokens.{claims_in_token, signed_token, claims_in_payload};

use crate::mac::hmac;
use base64::engine::general_purpose::URL_SAFE_NO_PAD;
use rt_value::Bytes;
use std::alloc::{AllocError, Global};

/// The base64url text of `{"alg":"HS256","typ":"JWT"}`.
const HEAD: &str = "eyJhbGciOiJIUzI1NiIsInR5cCI6IkpXVCJ9";

/// The token of the bytes of claims, signed under the secret. Fails for want of memory alone.
#[tactic(auto, unfolding(crate::specs::Tokens::signed_token))]
pub fn sign(alloc: Global, secret: &[u8], claims: &[u8]) -> Result<Bytes, AllocError>
    ensures text { IfOk result (λ token. token ≡ signed_token secret.now claims.now) }
    // Under the same secret the claims pass exactly where they pass the tests that don't ask who signed them.
    ensures accepted { IfOk result
        (λ token. (seconds : ℕ) → claims_in_token secret.now token seconds ≡ claims_in_payload claims.now seconds) }
{
    let mut token = String::from_str(alloc, HEAD)?;
    token.push('.')?;
    URL_SAFE_NO_PAD.encode_string(claims, &mut token)?;
    let tag = hmac(secret, token.as_bytes());
    token.push('.')?;
    URL_SAFE_NO_PAD.encode_string(&tag, &mut token)?;
    Ok(Bytes::new(token.into_bytes()))
}
