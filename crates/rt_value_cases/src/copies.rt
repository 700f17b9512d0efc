use crate::rows::{push_row, row_of};
use rt_value::{Bytes, Claim, Claims, List, Shared, Text};
use std::alloc::{AllocError, Global};
use std::fmt::Write;
use std::io;
use std::sync::Arc;

/// A copy of the bytes, each by two digits.
pub fn bytes(alloc: Global, bytes: &[u8]) -> io::Result<String> {
    let copy = Bytes::new(Vec::from_slice(alloc, bytes)?).copy(alloc)?;
    let mut answer = String::new(alloc);
    for byte in copy.get() {
        if !answer.is_empty() {
            answer.push(' ')?;
        }
        write!(answer, "{byte:02x}")?;
    }
    Ok(answer)
}

/// A copy of a row.
pub fn row(alloc: Global, word: &str) -> io::Result<String> {
    let copy = row_of(alloc, word)?.copy(alloc)?;
    let mut answer = String::new(alloc);
    push_row(&mut answer, &copy)?;
    Ok(answer)
}

/// A copy of claims: a role, then the names of members without a value.
pub fn claims(alloc: Global, given: &str) -> io::Result<String> {
    let Some((role, names)) = given.split_once(' ') else {
        return Err(io::ErrorKind::InvalidInput.into());
    };
    let mut members = Vec::new(alloc);
    for name in names.split_whitespace() {
        let name = text(alloc, name)?;
        members.push(Claim { name, value: None })?;
    }
    let claims = Claims {
        role: text(alloc, role)?,
        sub: Some(7),
        exp: None,
        members: List::new(members),
    };
    Ok(spelled(alloc, &claims.copy(alloc)?)?)
}

fn spelled(alloc: Global, claims: &Claims) -> Result<String, AllocError> {
    let mut answer = String::from_str(alloc, claims.role.get())?;
    let sub = claims.sub;
    let exp = claims.exp;
    write!(answer, " {sub:?} {exp:?}")?;
    for claim in claims.members.get() {
        let name = claim.name.get();
        let value = if claim.value.is_none() {
            "null"
        } else {
            "a text"
        };
        write!(answer, " {name}={value}")?;
    }
    Ok(answer)
}

fn text(alloc: Global, text: &str) -> Result<Text, AllocError> {
    Ok(Text::new(String::from_str(alloc, text)?))
}

/// The number that a shared value lends, and then gives back.
pub fn shared(alloc: Global, given: &str) -> io::Result<String> {
    let Ok(number) = given.parse::<u8>() else {
        return Err(io::ErrorKind::InvalidInput.into());
    };
    let shared = Shared::new(Arc::new(alloc, number)?);
    let lent = *shared.get();
    let given = *shared.into_inner();
    Ok(format!(in alloc; "{lent} {given}")?)
}
