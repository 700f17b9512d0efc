ghost use Rattle.std.specs.Prelude.{◌≡◌, IfOk, unwrap_or};
ghost use Rattle.std.specs.Option.{option_copied};
ghost use Rattle.rt_value.specs.declared.value.Value.TheVariants.{Null as null};
ghost use Rattle.rt_value.specs.Rows.{row_at, values_at, rows_before, rows_with};
ghost use Rattle.rt_value.specs.Edits.{filled, old_values, is_gone, row_of};
ghost use Rattle.rt_value.specs.Edits.{rows_unmoved, edited_rows};

use crate::{Edit, Key, List, Row, Value};
use std::alloc::{AllocError, Global};

/// The rows of a table after an edit, copied from those before it, which stand in the order of
/// their keys. Fails for want of memory alone.
pub fn edited(alloc: Global, rows: &[Row], edit: &Edit) -> Result<List<Row>, AllocError>
    ensures { IfOk result (λ after. after ≡ edited_rows edit.now rows.now) }
{
    match edit {
        Edit::Put { old, new, cells } => {
            let values = fill(alloc, cells.get(), values_of(rows, old))?;
            let unmoved = without(alloc, rows, old.as_ref())?;
            with_row(alloc, unmoved.get(), new, values)
        }
        Edit::Remove { key } => without(alloc, rows, Some(key)),
        Edit::Clear => Ok(List::new(Vec::new(alloc))),
        Edit::Nothing => without(alloc, rows, None),
    }
}

/// The values that a put gives its row: those of the cells, and for an absent cell that of the row
/// before, or null where it has none. Fails for want of memory alone.
pub fn fill(
    alloc: Global,
    cells: &[Option<Value>],
    old: &[Value],
) -> Result<List<Value>, AllocError>
    ensures { IfOk result (λ values. values ≡ filled cells.now old.now) }
{
    let mut values = Vec::with_capacity(alloc, cells.len())?;
    for (i, cell) in cells.iter().enumerate() {
        let value = value_or(alloc, cell, old.get(i))?;
        values.push(value)?;
    }
    Ok(List::new(values))
}

fn value_or(
    alloc: Global,
    cell: &Option<Value>,
    before: Option<&Value>,
) -> Result<Value, AllocError>
    ensures { IfOk result (λ value.
        value ≡ unwrap_or cell.now (unwrap_or (option_copied before.entry) null)) }
{
    match cell {
        Some(value) => value.copy(alloc),
        None => match before {
            Some(value) => value.copy(alloc),
            None => Ok(Value::Null),
        },
    }
}

/// The values at the old key; none where there is no such key or no row.
fn values_of<'a>(rows: &'a [Row], old: &Option<Key>) -> &'a [Value]
    ensures { result.now ≡ old_values old.now (λ key. values_at key rows.now) }
{
    match old {
        None => &[],
        Some(key) => match row_with(rows, key) {
            None => &[],
            Some(row) => row.values.get(),
        },
    }
}

/// The row with the key.
fn row_with<'a>(rows: &'a [Row], key: &Key) -> Option<&'a Row>
    ensures { option_copied result ≡ row_at key.now rows.now }
{
    for row in rows {
        if *key == row.key {
            return Some(row);
        }
    }
    None
}

/// Copies of the rows, without that at the key that is gone.
fn without(alloc: Global, rows: &[Row], gone: Option<&Key>) -> Result<List<Row>, AllocError>
    ensures { IfOk result (λ left. left ≡ rows_unmoved (option_copied gone.entry) rows.now) }
{
    let mut left = Vec::new(alloc);
    for row in rows {
        if !is_at(gone, &row.key) {
            left.push(row.copy(alloc)?)?;
        }
    }
    Ok(List::new(left))
}

fn is_at(gone: Option<&Key>, key: &Key) -> bool
    ensures { result ≡ is_gone (option_copied gone.entry) key.now }
{
    match gone {
        None => false,
        Some(gone) => *gone == *key,
    }
}

/// Copies of the rows, with the row of these values at the key, in its place.
fn with_row(
    alloc: Global,
    rows: &[Row],
    key: &Key,
    values: List<Value>,
) -> Result<List<Row>, AllocError>
    ensures { IfOk result (λ after. after ≡ rows_with (row_of key.now values) rows.now) }
{
    let mut after = rows_below(alloc, rows, key)?;
    after.push(Row {
        key: key.copy(alloc)?,
        values,
    })?;
    for row in rows {
        if *key < row.key {
            after.push(row.copy(alloc)?)?;
        }
    }
    Ok(List::new(after))
}

/// Copies of the rows with a lesser key.
fn rows_below(alloc: Global, rows: &[Row], key: &Key) -> Result<Vec<Row>, AllocError>
    ensures { IfOk result (λ below. below.items ≡ rows_before key.now rows.now) }
{
    let mut below = Vec::new(alloc);
    for row in rows {
        if row.key < *key {
            below.push(row.copy(alloc)?)?;
        }
    }
    Ok(below)
}
