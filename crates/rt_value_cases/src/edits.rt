use crate::rows::{key_in, number_in, push_row, rows_of};
use crate::values::{push_value, value_in};
use rt_value::{Edit, Key, List, Value, edited, fill};
use std::alloc::Global;
use std::io;

/// The rows of a table after an edit, as `move 1 5; 1=a 3=c`, or the values that `fill` gives.
pub fn answer(alloc: Global, question: &str, given: &str) -> io::Result<String> {
    let Some((words, before)) = given.split_once(';') else {
        return Err(io::ErrorKind::InvalidInput.into());
    };
    if question == "fill" {
        return filled(alloc, words, before);
    }
    let rows = rows_of(alloc, before)?;
    let edit = edit_in(alloc, question, words)?;
    let mut answer = String::new(alloc);
    for row in edited(alloc, rows.as_slice(), &edit)?.get() {
        push_row(&mut answer, row)?;
    }
    Ok(answer)
}

fn edit_in(alloc: Global, verb: &str, words: &str) -> io::Result<Edit> {
    match verb {
        "move" => moving(alloc, words),
        "put" => put(alloc, None, words),
        "remove" => Ok(Edit::Remove {
            key: key_in(alloc, words)?,
        }),
        "clear" => Ok(Edit::Clear),
        "keep" => Ok(Edit::Nothing),
        _ => Err(io::ErrorKind::InvalidInput.into()),
    }
}

fn moving(alloc: Global, words: &str) -> io::Result<Edit> {
    let Some((old, new)) = words.split_once(' ') else {
        return Err(io::ErrorKind::InvalidInput.into());
    };
    put(alloc, Some(key_in(alloc, old)?), new)
}

/// A put that gives the key column alone.
fn put(alloc: Global, old: Option<Key>, new: &str) -> io::Result<Edit> {
    let cells = vec![in alloc; Some(Value::Int(number_in(new)?)), None]?;
    Ok(Edit::Put {
        old,
        new: key_in(alloc, new)?,
        cells: List::new(cells),
    })
}

/// The values of a put whose cells are the first words, `-` for an absent one, over the others.
fn filled(alloc: Global, cells: &str, old: &str) -> io::Result<String> {
    let mut given = Vec::new(alloc);
    for word in cells.split_whitespace() {
        given.push(cell_in(alloc, word)?)?;
    }
    let mut before = Vec::new(alloc);
    for word in old.split_whitespace() {
        before.push(value_in(alloc, word)?)?;
    }
    let values = fill(alloc, given.as_slice(), before.as_slice())?;
    spelled(alloc, values.get())
}

fn cell_in(alloc: Global, word: &str) -> io::Result<Option<Value>> {
    match word {
        "-" => Ok(None),
        _ => Ok(Some(value_in(alloc, word)?)),
    }
}

fn spelled(alloc: Global, values: &[Value]) -> io::Result<String> {
    let mut answer = String::new(alloc);
    for value in values {
        if !answer.is_empty() {
            answer.push(' ')?;
        }
        push_value(&mut answer, value)?;
    }
    Ok(answer)
}
