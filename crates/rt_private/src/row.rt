//! The row that is judged.
ghost use Rattle.std.specs.Prelude.{◌≡◌, IfOk, map};
ghost use Rattle.std.specs.List.{range_with_len};
ghost use Rattle.rt_private.specs.Asked.{use_of};
ghost use Rattle.rt_private.specs.Rights.{value_asked, row_asked};

use crate::Messages;
use crate::asked::{Asked, action, extension};
use rt_catalog::Catalog;
use rt_value::{Key, List, Row, Text, Value};
use std::alloc::{AllocError, Global};

fn text(alloc: Global, text: &str) -> Result<Value, AllocError>
    ensures { IfOk result (λ v. v ≡ Value.Text text.now) }
{
    Ok(Value::Text(Text::new(String::from_str(alloc, text)?)))
}

// The value of the column of this number.
fn value(
    alloc: Global,
    messages: &Messages,
    topic: &Text,
    asked: Asked,
    column: usize,
) -> Result<Value, AllocError>
    ensures { IfOk result (λ v. v ≡ value_asked messages.now topic.now (use_of asked) column) }
{
    if column == messages.topic as usize {
        return text(alloc, topic.get());
    }
    if column == messages.extension as usize {
        return text(alloc, extension(asked));
    }
    if column == messages.action as usize {
        return text(alloc, action(asked));
    }
    Ok(Value::Null)
}

fn key(
    alloc: Global,
    messages: &Messages,
    topic: &Text,
    asked: Asked,
    columns: &[u32],
) -> Result<Vec<Value>, AllocError>
    ensures { IfOk result (λ v.
        v.items ≡ map (value_asked messages.now topic.now (use_of asked)) columns.now) }
{
    let mut values = Vec::with_capacity(alloc, columns.len())?;
    for column in columns {
        values.push(value(alloc, messages, topic, asked, *column as usize)?)?;
    }
    Ok(values)
}

fn values(
    alloc: Global,
    messages: &Messages,
    topic: &Text,
    asked: Asked,
    count: usize,
) -> Result<Vec<Value>, AllocError>
    ensures { IfOk result (λ v.
        v.items
        ≡ map (value_asked messages.now topic.now (use_of asked)) (range_with_len 0 count)) }
{
    let mut values = Vec::with_capacity(alloc, count)?;
    for column in 0..count {
        values.push(value(alloc, messages, topic, asked, column)?)?;
    }
    Ok(values)
}

fn row(
    alloc: Global,
    messages: &Messages,
    topic: &Text,
    asked: Asked,
    columns: &[u32],
    count: usize,
) -> Result<Row, AllocError>
    ensures key { IfOk result (λ r. r.key.values
        ≡ map (value_asked messages.now topic.now (use_of asked)) columns.now) }
    ensures values { IfOk result (λ r. r.values
        ≡ map (value_asked messages.now topic.now (use_of asked)) (range_with_len 0 count)) }
{
    let key = Key {
        values: List::new(key(alloc, messages, topic, asked, columns)?),
    };
    let values = List::new(values(alloc, messages, topic, asked, count)?);
    Ok(Row { key, values })
}

/// The row with the topic and the words of what is asked, and null elsewhere.
pub fn row_asked(
    alloc: Global,
    catalog: &Catalog,
    messages: &Messages,
    topic: &Text,
    asked: Asked,
) -> Result<Row, AllocError>
    ensures { IfOk result (λ r. r ≡ row_asked catalog.now messages.now topic.now (use_of asked)) }
{
    match catalog.tables.get().get(messages.table as usize) {
        None => row(alloc, messages, topic, asked, &[], 0),
        Some(table) => {
            let columns = table.columns.get().len();
            row(alloc, messages, topic, asked, table.key.get(), columns)
        }
    }
}
