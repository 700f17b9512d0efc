//! Columns and cells as a case writes them.
use rt_filter::Shown;
use rt_value::{Cells, Kind, List, Text, Value, ValueFault, from_text};
use std::alloc::Global;
use std::io;

fn kind_named(name: &str) -> Option<Kind> {
    match name {
        "int2" => Some(Kind::Int2),
        "int4" => Some(Kind::Int4),
        "int8" => Some(Kind::Int8),
        "text" => Some(Kind::Text),
        "varchar" => Some(Kind::Varchar),
        "bool" => Some(Kind::Bool),
        "uuid" => Some(Kind::Uuid),
        "timestamptz" => Some(Kind::Timestamptz),
        "json" => Some(Kind::Json),
        "opaque" => Some(Kind::Opaque),
        _ => None,
    }
}

/// Returns the column that `NAME KIND` writes, selectable, or `NAME KIND unselectable`.
fn column_of(alloc: Global, text: &str) -> io::Result<Shown> {
    let (name, rest) = text.split_once(' ').ok_or(io::ErrorKind::InvalidInput)?;
    let (kind, selectable) = match rest.strip_suffix(" unselectable") {
        None => (rest, true),
        Some(kind) => (kind, false),
    };
    Ok(Shown {
        name: Text::new(String::from_str(alloc, name)?),
        kind: kind_named(kind).ok_or(io::ErrorKind::InvalidInput)?,
        selectable,
    })
}

/// Returns the columns that stand between commas.
///
/// # Errors
///
/// `InvalidInput` where one isn't written as a column; `OutOfMemory`.
pub fn columns_of(alloc: Global, text: &str) -> io::Result<Vec<Shown>> {
    let mut columns = Vec::new(alloc);
    for column in text.split(", ") {
        columns.push(column_of(alloc, column)?)?;
    }
    Ok(columns)
}

/// Returns what stands between single quotes, else the text itself.
fn unquoted(text: &str) -> &str {
    match text.strip_prefix('\'') {
        None => text,
        Some(inner) => inner.strip_suffix('\'').unwrap_or(text),
    }
}

fn cell_of(alloc: Global, kind: Kind, text: &str) -> io::Result<Option<Value>> {
    match text {
        "absent" => Ok(None),
        "null" => Ok(Some(Value::Null)),
        _ => match from_text(alloc, kind, unquoted(text)) {
            Ok(value) => Ok(Some(value)),
            Err(ValueFault::BadText) => Err(io::ErrorKind::InvalidInput.into()),
            Err(ValueFault::NoMemory) => Err(io::ErrorKind::OutOfMemory.into()),
        },
    }
}

/// Returns the cells that stand between commas, each of its column's kind. There may be fewer cells
/// than columns.
///
/// # Errors
///
/// `InvalidInput` where one isn't written as a cell of its column; `OutOfMemory`.
pub fn cells_of(alloc: Global, columns: &[Shown], text: &str) -> io::Result<Cells> {
    let mut cells = Vec::new(alloc);
    for (column, cell) in columns.iter().zip(text.split(", ")) {
        cells.push(cell_of(alloc, column.kind, cell)?)?;
    }
    Ok(List::new(cells))
}
