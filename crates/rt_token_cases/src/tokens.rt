use case_lines::text_of;
use rt_json::read;
use rt_token::{TokenFault, check, claims_of};
use rt_value::{Claim, Claims};
use std::alloc::{AllocError, Global};
use std::fmt::Write;
use std::io;

/// The claims of a token at a second, or why it is refused.
pub fn checked(alloc: Global, secret: &[u8], seconds: &[u8], token: &[u8]) -> io::Result<String> {
    match text_of(seconds)?.parse::<u64>() {
        Ok(seconds) => answered(alloc, check(alloc, secret, token, seconds)),
        Err(_) => Err(io::ErrorKind::InvalidInput.into()),
    }
}

/// The claims of a tree, or why it has none.
pub fn claims(alloc: Global, json: &[u8]) -> io::Result<String> {
    match read(alloc, json) {
        Ok(tree) => answered(alloc, claims_of(alloc, &tree)),
        Err(_) => Err(io::ErrorKind::InvalidInput.into()),
    }
}

fn answered(alloc: Global, claims: Result<Claims, TokenFault>) -> io::Result<String> {
    match claims {
        Ok(claims) => Ok(shown(alloc, &claims)?),
        Err(TokenFault::NoMemory) => Err(io::ErrorKind::OutOfMemory.into()),
        Err(fault) => Ok(format!(in alloc; "{fault}")?),
    }
}

fn shown(alloc: Global, claims: &Claims) -> Result<String, AllocError> {
    let mut answer = String::from_str(alloc, claims.role.get())?;
    push_sub(&mut answer, claims.sub)?;
    push_exp(&mut answer, claims.exp)?;
    for claim in claims.members.get() {
        push_member(&mut answer, claim)?;
    }
    Ok(answer)
}

fn push_sub(answer: &mut String, sub: Option<u128>) -> Result<(), AllocError> {
    match sub {
        Some(sub) => write!(answer, " | {sub:032x}"),
        None => answer.push_str(" | none"),
    }
}

fn push_exp(answer: &mut String, exp: Option<u64>) -> Result<(), AllocError> {
    match exp {
        Some(exp) => write!(answer, " | {exp}"),
        None => answer.push_str(" | none"),
    }
}

/// The name and the text of a claim; of one that is null the name alone.
fn push_member(answer: &mut String, claim: &Claim) -> Result<(), AllocError> {
    answer.push_str(" | ")?;
    answer.push_str(claim.name.get())?;
    match &claim.value {
        Some(value) => {
            answer.push('=')?;
            answer.push_str(value.get())
        }
        None => Ok(()),
    }
}
