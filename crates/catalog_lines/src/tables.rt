ghost use Rattle.std.specs.Prelude.{IfOk};
ghost use Rattle.rt_bind.specs.Apart.{CatalogIsApart};

use crate::kinds::kind_named;
use rt_bind::is_apart;
use rt_catalog::{Catalog, Column, Table};
use rt_policy::Rules;
use rt_value::{List, Text};
use std::alloc::{AllocError, Global};
use std::io;

fn text(alloc: Global, text: &str) -> Result<Text, AllocError> {
    Ok(Text::new(String::from_str(alloc, text)?))
}

/// Returns the column that `NAME KIND` writes.
fn column_of(alloc: Global, column: &str) -> io::Result<Column> {
    let (name, kind) = column.split_once(' ').ok_or(io::ErrorKind::InvalidInput)?;
    Ok(Column {
        name: text(alloc, name)?,
        kind: kind_named(kind).ok_or(io::ErrorKind::InvalidInput)?,
        shown: text(alloc, kind)?,
    })
}

/// Returns the number of a column.
fn number_of(columns: &[Column], name: &str) -> io::Result<u32> {
    let mut number = 0u32;
    for column in columns {
        if column.name.get() == name {
            return Ok(number);
        }
        number = number.saturating_add(1);
    }
    Err(io::ErrorKind::InvalidInput.into())
}

/// Returns the numbers of the columns that `NAME NAME` writes, none of no text.
fn key_of(alloc: Global, columns: &[Column], key: &str) -> io::Result<Vec<u32>> {
    let mut numbers = Vec::new(alloc);
    for name in key.split_whitespace() {
        numbers.push(number_of(columns, name)?)?;
    }
    Ok(numbers)
}

/// Returns the table that a line writes.
fn table_of(alloc: Global, line: &str) -> io::Result<Table> {
    let (head, written) = line.split_once(": ").ok_or(io::ErrorKind::InvalidInput)?;
    let (name, key) = head.split_once(" by ").unwrap_or((head, ""));
    let mut columns = Vec::new(alloc);
    for column in written.split(", ") {
        columns.push(column_of(alloc, column)?)?;
    }
    let key = key_of(alloc, columns.as_slice(), key)?;
    Ok(Table {
        schema: text(alloc, "public")?,
        name: text(alloc, name)?,
        columns: List::new(columns),
        key: List::new(key),
    })
}

fn tables_of(alloc: Global, lines: &str) -> io::Result<Vec<Table>> {
    let mut tables = Vec::new(alloc);
    for line in lines.lines() {
        if !line.is_empty() && !line.starts_with("#") {
            tables.push(table_of(alloc, line)?)?;
        }
    }
    Ok(tables)
}

/// Returns the catalogue of the tables that the lines write, in their order: `public.NAME` for the line
/// `NAME by KEY KEY: COLUMN KIND, COLUMN KIND`. Without ` by ` the table has no key. Empty lines and
/// lines that begin with `#` are passed over. There are no roles, no grants and no rules.
///
/// # Errors
///
/// `InvalidInput` where a line writes no table, or two columns of a table have one name; `OutOfMemory`.
pub fn catalog_of(alloc: Global, lines: &str) -> io::Result<Catalog>
    ensures { IfOk result CatalogIsApart }
{
    let tables = tables_of(alloc, lines)?;
    let Ok(rules) = Rules::new(List::new(Vec::new(alloc))) else {
        return Err(io::ErrorKind::InvalidInput.into());
    };
    let catalog = Catalog {
        tables: List::new(tables),
        roles: List::new(Vec::new(alloc)),
        grants: List::new(Vec::new(alloc)),
        rules,
    };
    if is_apart(&catalog) {
        Ok(catalog)
    } else {
        Err(io::ErrorKind::InvalidInput.into())
    }
}
