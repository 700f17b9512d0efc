use rt_replica::Tables;
use rt_value::{Cells, Edit, Key, List, Text, Value};
use std::alloc::{AllocError, Global};
use std::io;

/// The number of a table.
pub fn table(digits: &str) -> io::Result<u32> {
    match digits.parse::<u32>() {
        Ok(number) => Ok(number),
        Err(_) => Err(io::ErrorKind::InvalidInput.into()),
    }
}

// A whole number, null, or else a text.
fn value(alloc: Global, word: &str) -> Result<Value, AllocError> {
    if word == "null" {
        return Ok(Value::Null);
    }
    match word.parse::<i64>() {
        Ok(number) => Ok(Value::Int(number)),
        Err(_) => Ok(Value::Text(Text::new(String::from_str(alloc, word)?))),
    }
}

/// The key of these values.
pub fn key(alloc: Global, words: &str) -> Result<Key, AllocError> {
    let mut values = Vec::new(alloc);
    for word in words.split(',') {
        values.push(value(alloc, word)?)?;
    }
    Ok(Key {
        values: List::new(values),
    })
}

fn cells(alloc: Global, words: &str) -> Result<Cells, AllocError> {
    let mut cells = Vec::new(alloc);
    for word in words.split(',') {
        if word == "-" {
            cells.push(None)?;
        } else {
            cells.push(Some(value(alloc, word)?))?;
        }
    }
    Ok(List::new(cells))
}

fn put(alloc: Global, old: Option<Key>, new: &str, given: &str) -> Result<Edit, AllocError> {
    Ok(Edit::Put {
        old,
        new: key(alloc, new)?,
        cells: cells(alloc, given)?,
    })
}

/// Makes the edit that a call says.
pub fn make(alloc: Global, tables: &mut Tables, call: &str) -> io::Result<()> {
    let words: Vec<&str> = call.splitn(5, ' ').collect(alloc)?;
    let (number, edit) = match words.as_slice() {
        ["put", number, new, given] => (number, put(alloc, None, new, given)?),
        ["move", number, old, new, given] => {
            (number, put(alloc, Some(key(alloc, old)?), new, given)?)
        }
        ["remove", number, old] => (
            number,
            Edit::Remove {
                key: key(alloc, old)?,
            },
        ),
        ["clear", number] => (number, Edit::Clear),
        ["nothing", number] => (number, Edit::Nothing),
        _ => return Err(io::ErrorKind::InvalidInput.into()),
    };
    Ok(tables.apply(table(number)?, &edit)?)
}
