ghost use Rattle.std.specs.Prelude.{◌≡◌, true, IfOk};
ghost use Rattle.std.specs.List.{list_any};
ghost use Rattle.std.specs.Option.{option_copied, option_map_or};
ghost use Rattle.std.specs.Str.{bytes_eq};
ghost use Rattle.rt_value.specs.Choice.{is_at};
ghost use Rattle.rt_change.specs.Binding.{given, cell_at, key_in, name_at, key_names, are_among};
ghost use Rattle.rt_change.specs.Binding.{same_names, keys_differ, lacks_value, key_column_without};

use rt_catalog::Table;
use rt_change::Verb;
use rt_value::{Cells, Key, List, Text, Value};
use rt_wal::Record;
use std::alloc::{AllocError, Global};

/// The value of a column's cell, where it is given and isn't null.
fn value_at(cells: &Cells, column: u32) -> Option<&Value>
    ensures { option_copied result ≡ given (cell_at cells.now column) }
{
    match cells.get().get(column as usize) {
        Some(Some(Value::Null)) => None,
        Some(Some(value)) => Some(value),
        Some(None) => None,
        None => None,
    }
}

/// The key that the cells give, where each of its columns has a value that isn't null.
#[tactic(auto, using(crate::proofs::Given::given_steps))]
pub fn key_in(alloc: Global, table: &Table, cells: &Cells) -> Result<Option<Key>, AllocError>
    ensures { IfOk result (λ key. key ≡ key_in table.now cells.now) }
{
    let columns = table.key.get();
    let mut values = Vec::with_capacity(alloc, columns.len())?;
    for column in columns {
        match value_at(cells, *column) {
            Some(value) => values.push(value.copy(alloc)?)?,
            None => return Ok(None),
        }
    }
    Ok(Some(Key {
        values: List::new(values),
    }))
}

/// The name of a column.
fn name_at(table: &Table, column: u32) -> Option<&Text>
    ensures { option_copied result ≡ name_at table.now column }
{
    match table.columns.get().get(column as usize) {
        Some(column) => Some(&column.name),
        None => None,
    }
}

fn lacks_value(cells: &Cells, column: u32) -> bool
    ensures { result ≡ lacks_value cells.now column }
{
    value_at(cells, column).is_none()
}

/// The name of the first key column whose cell has no value.
pub fn key_column_without<'a>(table: &'a Table, cells: &Cells) -> Option<&'a Text>
    ensures { option_copied result ≡ key_column_without table.now cells.now }
{
    for column in table.key.get() {
        if lacks_value(cells, *column) {
            return name_at(table, *column);
        }
    }
    None
}

/// Whether a name is among others.
fn is_among(name: &Text, names: &[Text]) -> bool
    ensures { result ≡ list_any (bytes_eq name.now) names.now }
{
    names.iter().any(|other| *name == *other)
}

/// Whether a name is that of a key column.
#[tactic(auto, using(crate::proofs::KeyNames::any_steps))]
fn is_key_name(table: &Table, name: &Text) -> bool
    ensures { result ≡ list_any (bytes_eq name.now) (key_names table.now) }
{
    for column in table.key.get() {
        if is_at(table, *column, name) {
            return true;
        }
    }
    false
}

/// Whether a column has the name.
fn is_at(table: &Table, column: u32, name: &Text) -> bool
    ensures { result ≡ is_at (bytes_eq name.now) (name_at table.now column) }
{
    match name_at(table, column) {
        Some(other) => *name == *other,
        None => false,
    }
}

/// Whether each of the names is that of a key column.
fn are_key_names(table: &Table, names: &[Text]) -> bool
    ensures { result ≡ are_among names.now (key_names table.now) }
{
    names.iter().all(|name| is_key_name(table, name))
}

/// Whether a column's name, where it has one, is among others.
fn is_name_among(table: &Table, column: u32, names: &[Text]) -> bool
    ensures { result ≡ option_map_or (λ name. list_any (bytes_eq name) names.now)
        (name_at table.now column) true }
{
    match name_at(table, column) {
        Some(name) => is_among(name, names),
        None => true,
    }
}

/// Whether the name of each key column is among these.
#[tactic(auto, using(crate::proofs::KeyNames::all_steps))]
fn has_key_names(table: &Table, names: &[Text]) -> bool
    ensures { result ≡ are_among (key_names table.now) names.now }
{
    for column in table.key.get() {
        if !is_name_among(table, *column, names) {
            return false;
        }
    }
    true
}

fn are_same(table: &Table, names: &[Text]) -> bool
    ensures { result ≡ same_names names.now (key_names table.now) }
{
    are_key_names(table, names) && has_key_names(table, names)
}

/// Whether a record names a key, and another than the table's. That of a truncate isn't compared.
pub fn keys_differ(verb: Verb, table: &Table, given: &Record) -> bool
    ensures { result ≡ keys_differ verb table.now given.now }
{
    let names = given.keys.get();
    match verb {
        Verb::Truncate => false,
        Verb::Insert | Verb::Update | Verb::Delete => {
            !names.is_empty() && !are_same(table, names)
        }
    }
}
