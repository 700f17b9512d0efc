ghost use Rattle.std.specs.Prelude.{◌≡◌, ◌<◌, ◌++◌, length, find, option_map};
ghost use Rattle.std.specs.List.{enumerate_from};
ghost use Rattle.std.specs.Option.{option_copied};
ghost use Rattle.std.specs.Str.{bytes_eq};
ghost use Rattle.rt_catalog.specs.Access.{table_named, table_at};
ghost use Rattle.rt_change.specs.Binding.{column_named, tree_for};
ghost use Rattle.rt_bind.specs.Apart.{FieldsAreApart, ColumnsAreApart};
ghost use Rattle.rt_bind.specs.Checks.{is_named};

use rt_catalog::{Catalog, Column, Table};
use rt_json::Json;
use rt_value::Text;
use rt_wal::Field;

/// The first table of a schema and a name, with its number.
fn find_table<'a>(catalog: &'a Catalog, schema: &Text, name: &Text) -> Option<(usize, &'a Table)>
    ensures { option_map (λ t. (t.0, t.1.now)) result ≡ find (is_named schema.now name.now)
        (enumerate_from 0 catalog.now.tables) }
{
    let mut tables = catalog.tables.get().iter().enumerate();
    tables.find(|(_, table)| table.schema == *schema && table.name == *name)
}

/// The number of the first table of a schema and a name.
pub fn table_number(catalog: &Catalog, schema: &Text, name: &Text) -> Option<usize>
    ensures { result ≡ table_named catalog.now schema.now name.now }
{
    match find_table(catalog, schema, name) {
        Some((number, _)) => Some(number),
        None => None,
    }
}

/// The table of a number.
pub fn table_at(catalog: &Catalog, number: usize) -> &Table
    requires { number < length catalog.now.tables }
    ensures { result.now ≡ table_at catalog.now number }
{
    &catalog.tables.get()[number]
}

/// The field of a name, which is tried at the place first.
pub fn field_named<'a>(fields: &'a [Field], at: usize, name: &Text) -> Option<&'a Field>
    requires { FieldsAreApart fields.now }
    ensures { option_copied result ≡ find (λ f. bytes_eq f.name name.now) fields.now }
{
    if let Some(field) = fields.get(at) {
        if field.name == *name {
            return Some(field);
        }
    }
    fields.iter().find(|field| field.name == *name)
}

/// The column of a name, which is tried at the place first.
pub fn column_named<'a>(table: &'a Table, at: usize, name: &Text) -> Option<&'a Column>
    requires { ColumnsAreApart table.now.columns }
    ensures { option_copied result ≡ column_named table.now name.now }
{
    if let Some(column) = table.columns.get().get(at) {
        if column.name == *name {
            return Some(column);
        }
    }
    table
        .columns
        .get()
        .iter()
        .find(|column| column.name == *name)
}

/// The tree that the fields of the first list, and behind them those of the second, give the column
/// at a place.
pub fn tree_for<'a>(
    first: &'a [Field],
    second: &'a [Field],
    at: usize,
    column: &Column,
) -> Option<&'a Json>
    requires first { FieldsAreApart first.now }
    requires second { FieldsAreApart second.now }
    ensures { option_copied result ≡ tree_for (first.now ++ second.now) column.now }
{
    if let Some(field) = field_named(first, at, &column.name) {
        return Some(&field.tree);
    }
    match field_named(second, at, &column.name) {
        Some(field) => Some(&field.tree),
        None => None,
    }
}
