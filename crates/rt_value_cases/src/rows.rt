use rt_value::{
    Db, Key, LentValue, List, Row, SortedTables, Text, Value, lend, rows_in, rows_with,
};
use std::alloc::{AllocError, Global};
use std::fmt::Write;
use std::io;

/// What a table of several has: its first row, the row after a key, all its rows, or those whose key
/// begins with given numbers.
///
/// `first 1; / 2=a 3=b`, where `/` separates the tables, which count from 0; `after 1 2; / 2=a 3=b`;
/// `walk 1; / 2=a 3=b`; `with 0 2; 1.7=a 2.1=b 2.3=c`, keys of two numbers. No number is `-`.
pub fn answer(alloc: Global, question: &str, given: &str) -> io::Result<String> {
    let Some((place, tables)) = given.split_once(';') else {
        return Err(io::ErrorKind::InvalidInput.into());
    };
    let Some(tables) = SortedTables::new(tables_in(alloc, tables)?) else {
        return Ok(String::from_str(alloc, "keys do not rise")?);
    };
    match question {
        "first" => row_or_none(alloc, tables.first(table_in(place)?)),
        "after" => after(alloc, &tables, place),
        "with" => with(alloc, &tables, place),
        _ => walked(alloc, &tables, table_in(place)?),
    }
}

fn after(alloc: Global, tables: &SortedTables, place: &str) -> io::Result<String> {
    let Some((table, key)) = place.split_once(' ') else {
        return Err(io::ErrorKind::InvalidInput.into());
    };
    let key = key_in(alloc, key)?;
    row_or_none(alloc, tables.after(table_in(table)?, &key))
}

fn with(alloc: Global, tables: &SortedTables, place: &str) -> io::Result<String> {
    let Some((table, numbers)) = place.split_once(' ') else {
        return Err(io::ErrorKind::InvalidInput.into());
    };
    let table = table_in(table)?;
    let key = if numbers.trim() == "-" {
        Key {
            values: List::new(Vec::new(alloc)),
        }
    } else {
        key_in(alloc, numbers)?
    };
    let mut values = Vec::<LentValue<'_>>::new(alloc);
    for value in key.values.get() {
        values.push(lend(value))?;
    }
    let mut answer = String::new(alloc);
    for row in rows_with(tables, table, &values) {
        push_row(&mut answer, row)?;
    }
    Ok(answer)
}

fn row_or_none(alloc: Global, row: Option<&Row>) -> io::Result<String> {
    let mut answer = String::new(alloc);
    match row {
        Some(row) => push_row(&mut answer, row)?,
        None => answer.push_str("none")?,
    }
    Ok(answer)
}

fn walked(alloc: Global, tables: &SortedTables, table: u32) -> io::Result<String> {
    let mut answer = String::new(alloc);
    for row in rows_in(tables, table) {
        push_row(&mut answer, row)?;
    }
    Ok(answer)
}

fn table_in(word: &str) -> io::Result<u32> {
    match word.trim().parse::<u32>().ok() {
        Some(table) => Ok(table),
        None => Err(io::ErrorKind::InvalidInput.into()),
    }
}

fn tables_in(alloc: Global, text: &str) -> io::Result<List<List<Row>>> {
    let mut tables = Vec::new(alloc);
    for table in text.split('/') {
        tables.push(List::new(rows_of(alloc, table)?))?;
    }
    Ok(List::new(tables))
}

/// The rows of a case, in the order in which it has them.
pub fn rows_of(alloc: Global, text: &str) -> io::Result<Vec<Row>> {
    let mut rows = Vec::new(alloc);
    for word in text.split_whitespace() {
        rows.push(row_of(alloc, word)?)?;
    }
    Ok(rows)
}

/// A row whose key are the columns before its name.
pub fn row_of(alloc: Global, word: &str) -> io::Result<Row> {
    let Some((key, name)) = word.split_once('=') else {
        return Err(io::ErrorKind::InvalidInput.into());
    };
    let mut values = numbers_in(alloc, key)?;
    values.push(name_of(alloc, name)?)?;
    Ok(Row {
        key: key_in(alloc, key)?,
        values: List::new(values),
    })
}

fn name_of(alloc: Global, name: &str) -> Result<Value, AllocError> {
    match name {
        "null" => Ok(Value::Null),
        _ => Ok(Value::Text(Text::new(String::from_str(alloc, name)?))),
    }
}

/// A key of whole numbers, as `3` or `3.-1`.
pub fn key_in(alloc: Global, word: &str) -> io::Result<Key> {
    Ok(Key {
        values: List::new(numbers_in(alloc, word)?),
    })
}

fn numbers_in(alloc: Global, word: &str) -> io::Result<Vec<Value>> {
    let mut numbers = Vec::new(alloc);
    for number in word.split('.') {
        numbers.push(Value::Int(number_in(number)?))?;
    }
    Ok(numbers)
}

/// A whole number.
pub fn number_in(word: &str) -> io::Result<i64> {
    match word.trim().parse::<i64>().ok() {
        Some(number) => Ok(number),
        None => Err(io::ErrorKind::InvalidInput.into()),
    }
}

/// Adds a row, as cases have it, behind a blank where it is not the first.
pub fn push_row(answer: &mut String, row: &Row) -> Result<(), AllocError> {
    if !answer.is_empty() {
        answer.push(' ')?;
    }
    push_numbers(answer, row.key.values.get())?;
    answer.push('=')?;
    match row.values.get().last() {
        Some(Value::Text(name)) => answer.push_str(name.get()),
        _ => answer.push_str("null"),
    }
}

fn push_numbers(answer: &mut String, values: &[Value]) -> Result<(), AllocError> {
    for (at, value) in values.iter().enumerate() {
        if at > 0 {
            answer.push('.')?;
        }
        match value {
            Value::Int(n) => write!(answer, "{n}")?,
            _ => answer.push('?')?,
        }
    }
    Ok(())
}
