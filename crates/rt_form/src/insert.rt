ghost use Rattle.std.specs.Prelude.{◌≡◌, ◌↔◌, ◌∷◌, [], ℕ, true, List, Some, slice_get, IfOk};
ghost use Rattle.std.specs.Prelude.{IsTrue, MatchOption, MatchResult};
ghost use Rattle.std.specs.Char.{is_ascii_digit};
ghost use Rattle.std.specs.List.{list_all};
ghost use Rattle.rt_json.specs.declared.tree.Json as j;
ghost use Rattle.rt_form.specs.Script.{HasColumns, HasKeyName, IsField, IsFields, IsInsert};
ghost use Rattle.rt_form.specs.Script.{IsInsertTree, IsKey, IsRow, IsRowLine, fits, insert_tree};
ghost use Rattle.rt_form.specs.Script.{is_small_number, without_minus};
ghost use Rattle.rt_form.specs.declared.catalogue.Column as c;

use crate::fault::FormFault;
use crate::join::tree_of;
use crate::shapes::{
    first_named, first_text, is_text, members_of, only_element, three_values, two_elements,
    two_values,
};
use crate::{Column, ColumnType, Table};
use rt_json::Json;
use rt_value::List;
use std::alloc::{AllocError, Global};

/// The most bytes of a record's line.
const MOST_RECORD_BYTES: usize = 1048576;

fn without_minus(digits: &[u8]) -> &[u8]
    ensures { result.now ≡ without_minus digits.now }
{
    match digits {
        [first, rest @ ..] if *first == b'-' => rest,
        _ => digits,
    }
}

fn are_digits(digits: &[u8]) -> bool
    ensures { result ≡ list_all is_ascii_digit digits.now }
{
    digits.iter().all(|digit| digit.is_ascii_digit())
}

/// An optional `-` and at most nine digits.
fn is_small_number(text: &str) -> bool
    ensures { result ≡ is_small_number text.now }
{
    let digits = without_minus(text.as_bytes());
    digits.len() <= 9 && are_digits(digits)
}

fn is_value(tree: &Json, column_type: ColumnType) -> bool
    ensures { result ≡ fits column_type tree.now }
{
    match (column_type, tree) {
        (ColumnType::Int4, Json::Num(digits)) => is_small_number(digits.get()),
        (ColumnType::Text, Json::Text(_)) => true,
        _ => false,
    }
}

fn is_of(name: &Json, value: &Json, column: &Column) -> bool
    ensures { IsTrue result ↔ ((name.now ≡ Json.Text column.now.name)
        × (fits column.now.column_type value.now ≡ true)) }
{
    is_text(name, column.name.get()) && is_value(value, column.column_type)
}

/// The value that a field has for the column. Its type is passed over.
fn value_in<'a>(tree: &'a Json, column: &Column) -> Option<&'a Json>
    ensures { MatchOption result ((value : j.Json) → IsField column.now tree.now value → ⊥)
        (λ value. IsField column.now tree.now value.now) }
{
    let (name, _, value) = three_values(tree, "name", "type", "value")?;
    if is_of(name, value, column) {
        Some(value)
    } else {
        None
    }
}

/// The values that fields have for both columns, in order.
fn values_in<'a>(tree: &'a Json, first: &Column, second: &Column) -> Option<(&'a Json, &'a Json)>
    ensures { MatchOption result ((one two : j.Json)
        → IsFields first.now second.now tree.now one two → ⊥)
        (λ values. IsFields first.now second.now tree.now values.0.now values.1.now) }
{
    let (one, two) = two_elements(tree)?;
    let one = value_in(one, first)?;
    let two = value_in(two, second)?;
    Some((one, two))
}

/// Whether a list names the key's column and no other.
fn is_key(tree: &Json, key: &Column) -> bool
    ensures { IsTrue result ↔ IsKey key.now tree.now }
{
    match key_name(tree) {
        Some(name) => is_text(name, key.name.get()),
        None => false,
    }
}

fn key_name(tree: &Json) -> Option<&Json>
    ensures { MatchOption result ((name : j.Json) → HasKeyName tree.now name → ⊥)
        (λ name. HasKeyName tree.now name.now) }
{
    let key = only_element(tree)?;
    let (name, _) = two_values(key, "name", "type")?;
    Some(name)
}

/// The fields and the key of a record that inserts into a table of this name.
fn insert_parts<'a>(tree: &'a Json, table: &str) -> Option<(&'a Json, &'a Json)>
    ensures { MatchOption result ((fields keys : j.Json)
        → tree.now ≡ insert_tree table.now fields keys → ⊥)
        (λ parts. tree.now ≡ insert_tree table.now parts.0.now parts.1.now) }
{
    let rest = first_text(members_of(tree)?, "action", "I")?;
    let rest = first_text(rest, "schema", "public")?;
    let rest = first_text(rest, "table", table)?;
    let (fields, rest) = first_named(rest, "columns")?;
    let (keys, rest) = first_named(rest, "pk")?;
    if rest.is_empty() {
        Some((fields, keys))
    } else {
        None
    }
}

/// The values of a record that inserts into a table of this name and these columns.
fn row_in<'a>(
    tree: &'a Json,
    table: &str,
    first: &Column,
    second: &Column,
    key: &Column,
) -> Option<(&'a Json, &'a Json)>
    ensures { MatchOption result ((one two : j.Json)
        → IsInsertTree table.now first.now second.now key.now tree.now one two → ⊥)
        (λ values. IsInsertTree table.now first.now second.now key.now tree.now
        values.0.now values.1.now) }
{
    let (fields, keys) = insert_parts(tree, table)?;
    let (one, two) = values_in(fields, first, second)?;
    if is_key(keys, key) {
        Some((one, two))
    } else {
        None
    }
}

fn row_of(alloc: Global, one: &Json, two: &Json) -> Result<List<Json>, AllocError>
    ensures { IfOk result (λ row. row ≡ one.now ∷ two.now ∷ []) }
{
    let mut values = Vec::new(alloc);
    values.push(one.copy(alloc)?)?;
    values.push(two.copy(alloc)?)?;
    Ok(List::new(values))
}

fn two_of(columns: &[Column]) -> Option<(&Column, &Column)>
    ensures { MatchOption result ((first second : c.Column) → columns.now ≡ first ∷ second ∷ [] → ⊥)
        (λ both. columns.now ≡ both.0.now ∷ both.1.now ∷ []) }
{
    if columns.len() == 2 {
        Some((&columns[0], &columns[1]))
    } else {
        None
    }
}

fn key_of(table: &Table) -> Option<&Column>
    ensures { MatchOption result ((key : c.Column)
        → slice_get table.now.columns table.now.key ≡ Some key → ⊥)
        (λ key. slice_get table.now.columns table.now.key ≡ Some key.now) }
{
    table.columns.get().get(table.key)
}

/// The two columns of a table, and its key's.
fn columns_of(table: &Table) -> Option<(&Column, &Column, &Column)>
    ensures { MatchOption result ((first second key : c.Column)
        → HasColumns table.now first second key → ⊥)
        (λ found. HasColumns table.now found.0.now found.1.now found.2.now) }
{
    let (first, second) = two_of(table.columns.get())?;
    let key = key_of(table)?;
    Some((first, second, key))
}

/// The row of a tree that inserts into a table of this name and these columns.
fn row_from(
    alloc: Global,
    tree: &Json,
    table: &str,
    first: &Column,
    second: &Column,
    key: &Column,
) -> Result<List<Json>, FormFault>
    ensures found { IfOk result (λ row. IsRow table.now first.now second.now key.now tree.now row) }
    ensures only { (row : List j.Json) → IsRow table.now first.now second.now key.now tree.now row
        → MatchResult result (λ found. found ≡ row) (λ fault. fault ≡ FormFault.NoMemory) }
{
    match row_in(tree, table, first, second, key) {
        Some((one, two)) => Ok(row_of(alloc, one, two)?),
        None => Err(FormFault::NotBuilt),
    }
}

/// The row of a record that inserts into a table of this name and these columns.
fn row_of_line(
    alloc: Global,
    line: &str,
    table: &str,
    first: &Column,
    second: &Column,
    key: &Column,
) -> Result<List<Json>, FormFault>
    ensures found { IfOk result
        (λ row. IsRowLine table.now first.now second.now key.now line.now row) }
    ensures only { (row : List j.Json)
        → IsRowLine table.now first.now second.now key.now line.now row
        → MatchResult result (λ found. found ≡ row) (λ fault. fault ≡ FormFault.NoMemory) }
{
    if line.len() > MOST_RECORD_BYTES {
        return Err(FormFault::NotBuilt);
    }
    let tree = tree_of(alloc, line)?;
    row_from(alloc, &tree, table, first, second, key)
}

/// The row that a record inserts into the table, a value for each column. `NotBuilt` where it is no
/// insert of the built form: the members in their order, each value of its column's type, no commit
/// time.
pub fn inserted_row(alloc: Global, line: &str, table: &Table) -> Result<List<Json>, FormFault>
    ensures found { IfOk result (λ row. IsInsert table.now line.now row) }
    ensures only { (row : List j.Json) → IsInsert table.now line.now row
        → MatchResult result (λ found. found ≡ row) (λ fault. fault ≡ FormFault.NoMemory) }
{
    match columns_of(table) {
        Some((first, second, key)) => {
            row_of_line(alloc, line, table.name.get(), first, second, key)
        }
        None => Err(FormFault::NotBuilt),
    }
}
