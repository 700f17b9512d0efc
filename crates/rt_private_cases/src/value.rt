//! Words of a case.
use rt_value::{Claims, Kind, List, Text, Value};
use std::alloc::{AllocError, Global};
use std::io;

/// The error of a part that is none.
pub fn no_case<T>() -> io::Result<T> {
    Err(io::ErrorKind::InvalidInput.into())
}

pub fn text(alloc: Global, text: &str) -> Result<Text, AllocError> {
    Ok(Text::new(String::from_str(alloc, text)?))
}

pub fn number(digits: &str) -> io::Result<u32> {
    match digits.parse::<u32>() {
        Ok(number) => Ok(number),
        Err(_) => no_case(),
    }
}

pub fn kind(word: &str) -> io::Result<Kind> {
    match word {
        "int8" => Ok(Kind::Int8),
        "text" => Ok(Kind::Text),
        "varchar" => Ok(Kind::Varchar),
        "uuid" => Ok(Kind::Uuid),
        _ => no_case(),
    }
}

/// A user by a number behind `#`, or `none`.
pub fn user(word: &str) -> io::Result<Option<u128>> {
    match word.strip_prefix("#") {
        Some(digits) => Ok(Some(u128::from(number(digits)?))),
        None if word == "none" => Ok(None),
        None => no_case(),
    }
}

/// A user by a number behind `#`, or a text.
pub fn value(alloc: Global, word: &str) -> io::Result<Value> {
    match word.strip_prefix("#") {
        Some(digits) => Ok(Value::Uuid(u128::from(number(digits)?))),
        None => Ok(Value::Text(text(alloc, word)?)),
    }
}

/// The claims of a user.
pub fn claims(alloc: Global, sub: Option<u128>) -> io::Result<Claims> {
    Ok(Claims {
        role: text(alloc, "")?,
        sub,
        exp: None,
        members: List::new(Vec::new(alloc)),
    })
}
