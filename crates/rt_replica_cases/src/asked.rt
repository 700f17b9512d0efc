ghost use Rattle.std.specs.Iterator.{IsFinite};

use crate::edits::{key, table};
use rt_replica::Tables;
use rt_value::{LentValue, Row, Value, lend, rows_in, rows_with};
use std::alloc::{AllocError, Global};
use std::io;

/// Adds what a question is answered.
pub fn push_part(answer: &mut String, part: &str) -> Result<(), AllocError> {
    if !answer.is_empty() {
        answer.push_str(" | ")?;
    }
    answer.push_str(part)
}

fn push_value(alloc: Global, shown: &mut String, value: &Value) -> Result<(), AllocError> {
    match value {
        Value::Null => shown.push_str("null"),
        Value::Int(number) => shown.push_str(format!(in alloc; "{number}")?.as_str()),
        Value::Text(text) => shown.push_str(text.get()),
        _ => shown.push_str("?"),
    }
}

fn push_values(alloc: Global, shown: &mut String, values: &[Value]) -> Result<(), AllocError> {
    let mut is_first = true;
    for value in values {
        if !is_first {
            shown.push_str(",")?;
        }
        is_first = false;
        push_value(alloc, shown, value)?;
    }
    Ok(())
}

// The key and the values of each row.
fn walk<'a, I: Iterator<Item = &'a Row> + Drop>(
    alloc: Global,
    rows: I,
) -> Result<String, AllocError>
    requires can { I.can_next rows }
    requires ends { IsFinite (I.remaining rows) }
{
    let mut shown = String::new(alloc);
    for row in rows {
        if !shown.is_empty() {
            shown.push_str(" ")?;
        }
        push_values(alloc, &mut shown, row.key.values.get())?;
        shown.push_str("=")?;
        push_values(alloc, &mut shown, row.values.get())?;
    }
    if shown.is_empty() {
        shown.push_str("none")?;
    }
    Ok(shown)
}

// The rows whose key begins with that of the words.
fn walk_with(alloc: Global, tables: &Tables, table: u32, words: &str) -> io::Result<String> {
    let key = key(alloc, words)?;
    let mut values = Vec::<LentValue<'_>>::new(alloc);
    for value in key.values.get() {
        values.push(lend(value))?;
    }
    Ok(walk(alloc, rows_with(tables, table, &values))?)
}

fn row_shown(alloc: Global, row: Option<&Row>) -> Result<String, AllocError> {
    let mut shown = String::new(alloc);
    match row {
        Some(row) => push_values(alloc, &mut shown, row.values.get())?,
        None => shown.push_str("none")?,
    }
    Ok(shown)
}

/// What a question is answered; none for a call that is no question.
pub fn answer(alloc: Global, tables: &Tables, call: &str) -> io::Result<Option<String>> {
    let words: Vec<&str> = call.splitn(3, ' ').collect(alloc)?;
    match words.as_slice() {
        ["get", number, words] => {
            let key = key(alloc, words)?;
            let row = tables.get(table(number)?, &key);
            Ok(Some(row_shown(alloc, row)?))
        }
        ["walk", number] => Ok(Some(walk(alloc, rows_in(tables, table(number)?))?)),
        ["with", number, words] => Ok(Some(walk_with(alloc, tables, table(number)?, words)?)),
        ["rows"] => {
            let rows = tables.rows();
            Ok(Some(format!(in alloc; "{rows}")?))
        }
        _ => Ok(None),
    }
}
