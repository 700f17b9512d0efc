use crate::rows::number_in;
use rt_value::{Kind, Text, Value, ValueFault, compare, from_text, shown_moment};
use std::alloc::{AllocError, Global};
use std::cmp::Ordering;
use std::fmt::Write;
use std::io;

/// The value of `int2 32767` and the like, a kind and a text, or `bad text`.
pub fn read(alloc: Global, given: &str) -> io::Result<String> {
    let Some((kind, text)) = given.split_once(' ') else {
        return Err(io::ErrorKind::InvalidInput.into());
    };
    let mut answer = String::new(alloc);
    match from_text(alloc, kind_named(kind)?, text) {
        Ok(value) => push_value(&mut answer, &value)?,
        Err(ValueFault::BadText) => answer.push_str("bad text")?,
        Err(ValueFault::NoMemory) => return Err(io::ErrorKind::OutOfMemory.into()),
    }
    Ok(answer)
}

/// How the first of two values stands to the second.
pub fn compared(alloc: Global, given: &str) -> io::Result<String> {
    let Some((a, b)) = given.split_once(' ') else {
        return Err(io::ErrorKind::InvalidInput.into());
    };
    let order = match compare(&value_in(alloc, a)?, &value_in(alloc, b)?) {
        Some(Ordering::Less) => "less",
        Some(Ordering::Equal) => "equal",
        Some(Ordering::Greater) => "greater",
        None => "no order",
    };
    Ok(String::from_str(alloc, order)?)
}

/// How the moment of a text, or of `number` and a number, is shown.
pub fn shown(alloc: Global, given: &str) -> io::Result<String> {
    let moment = match given.strip_prefix("number ") {
        Some(number) => number_in(number)?,
        None => moment_in(alloc, given)?,
    };
    let mut answer = String::new(alloc);
    push_quoted(&mut answer, &shown_moment(alloc, moment)?)?;
    Ok(answer)
}

fn moment_in(alloc: Global, text: &str) -> io::Result<i64> {
    match from_text(alloc, Kind::Timestamptz, text) {
        Ok(Value::Moment(moment)) => Ok(moment),
        Ok(_) | Err(ValueFault::BadText) => Err(io::ErrorKind::InvalidInput.into()),
        Err(ValueFault::NoMemory) => Err(io::ErrorKind::OutOfMemory.into()),
    }
}

/// The value that a word of a case stands for.
pub fn value_in(alloc: Global, word: &str) -> io::Result<Value> {
    let Some((kind, text)) = word.split_once(':') else {
        return match word {
            "null" => Ok(Value::Null),
            "opaque" => Ok(Value::Opaque),
            _ => Err(io::ErrorKind::InvalidInput.into()),
        };
    };
    match from_text(alloc, kind_named(kind)?, text) {
        Ok(value) => Ok(value),
        Err(ValueFault::BadText) => Err(io::ErrorKind::InvalidInput.into()),
        Err(ValueFault::NoMemory) => Err(io::ErrorKind::OutOfMemory.into()),
    }
}

fn kind_named(name: &str) -> io::Result<Kind> {
    match name {
        "int2" => Ok(Kind::Int2),
        "int4" => Ok(Kind::Int4),
        "int8" => Ok(Kind::Int8),
        "text" => Ok(Kind::Text),
        "varchar" => Ok(Kind::Varchar),
        "bool" => Ok(Kind::Bool),
        "uuid" => Ok(Kind::Uuid),
        "timestamptz" => Ok(Kind::Timestamptz),
        "json" => Ok(Kind::Json),
        "opaque" => Ok(Kind::Opaque),
        _ => Err(io::ErrorKind::InvalidInput.into()),
    }
}

/// Adds a value: a text in quotes, a uuid as its 32 digits.
pub fn push_value(answer: &mut String, value: &Value) -> Result<(), AllocError> {
    match value {
        Value::Null => answer.push_str("null"),
        Value::Int(n) => write!(answer, "{n}"),
        Value::Text(text) => push_quoted(answer, text),
        Value::Bool(b) => write!(answer, "{b}"),
        Value::Uuid(n) => write!(answer, "{n:032x}"),
        Value::Moment(n) => write!(answer, "{n}"),
        Value::Opaque => answer.push_str("opaque"),
    }
}

fn push_quoted(answer: &mut String, text: &Text) -> Result<(), AllocError> {
    let text = text.get();
    write!(answer, "'{text}'")
}
