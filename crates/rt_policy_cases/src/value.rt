//! Values, rows and claims as a case writes them.
use rt_value::{Claim, Claims, Key, Kind, List, Row, Text, Value, ValueFault, from_text};
use std::alloc::{AllocError, Global};
use std::io;

/// Says that the line is no case.
pub fn no_case<T>() -> io::Result<T> {
    Err(io::ErrorKind::InvalidInput.into())
}

fn value_in(alloc: Global, kind: Kind, text: &str) -> io::Result<Value> {
    match from_text(alloc, kind, text) {
        Ok(value) => Ok(value),
        Err(ValueFault::BadText) => no_case(),
        Err(ValueFault::NoMemory) => Err(io::ErrorKind::OutOfMemory.into()),
    }
}

fn quoted(word: &str) -> Option<&str> {
    word.strip_prefix('\'')?.strip_suffix('\'')
}

fn read_long(alloc: Global, word: &str) -> io::Result<Value> {
    if let Some(digits) = word.strip_prefix('#') {
        let uuid = format!(in alloc; "00000000-0000-4000-8000-0000000000{digits}")?;
        value_in(alloc, Kind::Uuid, uuid.as_str())
    } else if let Some(moment) = word.strip_prefix('@') {
        value_in(alloc, Kind::Timestamptz, moment)
    } else if let Some(text) = quoted(word) {
        value_in(alloc, Kind::Text, text)
    } else {
        value_in(alloc, Kind::Int8, word)
    }
}

/// Reads null, a truth value, a whole number, a text in single quotes, a uuid by its last two
/// digits, as `#a1`, or a moment behind `@`, without blanks.
pub fn read_value(alloc: Global, word: &str) -> io::Result<Value> {
    match word {
        "null" => Ok(Value::Null),
        "true" => Ok(Value::Bool(true)),
        "false" => Ok(Value::Bool(false)),
        _ => read_long(alloc, word),
    }
}

fn read_values(alloc: Global, text: &str) -> io::Result<List<Value>> {
    let mut values = Vec::new(alloc);
    for word in text.split_whitespace() {
        values.push(read_value(alloc, word)?)?;
    }
    Ok(List::new(values))
}

/// Reads values with blanks between them: a row, whose key is its first column.
pub fn read_row(alloc: Global, text: &str) -> io::Result<Row> {
    let (key, _) = text.split_once(' ').unwrap_or((text, ""));
    let values = read_values(alloc, key)?;
    Ok(Row {
        key: Key { values },
        values: read_values(alloc, text)?,
    })
}

/// Returns a text of its own.
pub fn text_from(alloc: Global, text: &str) -> Result<Text, AllocError> {
    Ok(Text::new(String::from_str(alloc, text)?))
}

/// Returns claims without a user: the role `authenticated`, and the claim `sub`, which is `ada`.
pub fn claims_of_ada(alloc: Global) -> Result<Claims, AllocError> {
    let sub = Claim {
        name: text_from(alloc, "sub")?,
        value: Some(text_from(alloc, "ada")?),
    };
    Ok(Claims {
        role: text_from(alloc, "authenticated")?,
        sub: None,
        exp: None,
        members: List::new(vec![in alloc; sub]?),
    })
}
