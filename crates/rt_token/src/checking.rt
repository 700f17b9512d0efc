ghost use Rattle.std.specs.Prelude.{◌≡◌, MatchResult, true, false, unwrap_or};
ghost use Rattle.rt_token.specs.declared.fault.TokenFault.TheVariants.{Expired};
ghost use Rattle.rt_token.specs.Answers.{IsAnswer, IsValueOrShape};
ghost use Rattle.rt_token.specs.Claims as spec;
ghost use Rattle.rt_token.specs.Parts as parts;
ghost use Rattle.rt_token.specs.Tokens.{claims_in_token, object_in, is_hs256};

use crate::claims::{exp_of, is_object, text_in, with_role};
use crate::comparing::is_same_tag;
use crate::fault::TokenFault;
use crate::mac::hmac;
use crate::parts::cut;
use base64::DecodeAllocError;
use base64::engine::general_purpose::URL_SAFE_NO_PAD;
use rt_json::{Json, JsonFault, read};
use rt_value::{Bytes, Claims};
use std::alloc::Global;

/// The bytes of a part.
fn bytes_of(alloc: Global, part: &[u8]) -> Result<Bytes, TokenFault>
    ensures { IsValueOrShape (parts.bytes_of part.now) result }
{
    match URL_SAFE_NO_PAD.decode(alloc, part) {
        Ok(bytes) => Ok(Bytes::new(bytes)),
        Err(DecodeAllocError::OutOfMemory) => Err(TokenFault::NoMemory),
        Err(DecodeAllocError::DecodeError(_)) => Err(TokenFault::Shape),
    }
}

/// The object that a part is.
fn object(alloc: Global, part: &[u8]) -> Result<Json, TokenFault>
    ensures { IsValueOrShape (object_in part.now) result }
{
    let bytes = bytes_of(alloc, part)?;
    match read(alloc, bytes.get()) {
        Ok(tree) => {
            if is_object(&tree) {
                Ok(tree)
            } else {
                Err(TokenFault::Shape)
            }
        }
        Err(JsonFault::NoMemory) => Err(TokenFault::NoMemory),
        Err(JsonFault::Bad { .. }) => Err(TokenFault::Shape),
        Err(JsonFault::TooDeep { .. }) => Err(TokenFault::Shape),
    }
}

fn is_hs256(head: &Json) -> bool
    ensures { result ≡ is_hs256 head.now }
{
    match text_in(head, "alg") {
        Some(text) => text.get() == "HS256",
        None => false,
    }
}

/// Whether claims are still valid at a second.
fn valid_at(exp: Option<u64>, seconds: u64) -> Result<(), TokenFault>
    ensures { MatchResult result (λ _. spec.is_expired seconds exp ≡ false)
        (λ fault. (spec.is_expired seconds exp ≡ true) × (fault ≡ Expired (unwrap_or exp 0))) }
{
    match exp {
        None => Ok(()),
        Some(exp) => {
            if exp <= seconds {
                Err(TokenFault::Expired { exp })
            } else {
                Ok(())
            }
        }
    }
}

/// The claims of a token that is signed under the secret and valid at the second (seconds since 1970): three base64url parts
/// without padding between two dots, the header, the payload and the tag of HMAC-SHA-256 over the first two (RFC 7515, "JWS
/// Compact Serialization"; RFC 7519, "Validating a JWT").
///
/// Fails with the first of these that applies, or for want of memory:
/// - `Shape`: not three parts; a part isn't base64url in its one form; header or payload isn't a JSON object; `exp` is there, isn't
///   null and isn't digits alone of at most 9007199254740991.
/// - `Algorithm`: the header's `alg` isn't the text `HS256`.
/// - `Signature`: the third part isn't the tag of the first two. All of its bytes are compared, wherever they differ.
/// - `Expired`: the second is `exp` or later.
/// - `NoRole`: the payload's `role` isn't a text.
#[tactic(auto, unfolding(crate::specs::Tokens::claims_in_token))]
pub fn check(alloc: Global, secret: &[u8], text: &[u8], seconds: u64) -> Result<Claims, TokenFault>
    ensures { IsAnswer (claims_in_token secret.now text.now seconds) result }
{
    let Some(parts) = cut(text) else {
        return Err(TokenFault::Shape);
    };
    let head = object(alloc, parts.head)?;
    let body = object(alloc, parts.body)?;
    let tag = bytes_of(alloc, parts.tag)?;
    let exp = exp_of(&body)?;
    if !is_hs256(&head) {
        return Err(TokenFault::Algorithm);
    }
    let wanted = hmac(secret, parts.signed);
    if !is_same_tag(tag.get(), &wanted) {
        return Err(TokenFault::Signature);
    }
    valid_at(exp, seconds)?;
    with_role(alloc, &body, exp)
}
