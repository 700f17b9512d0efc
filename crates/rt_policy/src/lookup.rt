ghost use Rattle.std.specs.Prelude.{◌≡◌, IfOk, find, slice_get, option_map};
ghost use Rattle.std.specs.List.{enumerate_from};
ghost use Rattle.std.specs.Option.{option_copied};
ghost use Rattle.std.specs.Str.{bytes_eq};
ghost use Rattle.rt_policy.specs.InnerTable.{reading_at};
ghost use Rattle.rt_policy.specs.Resolution.{column_named, table_named, found_as, inner_column};
ghost use Rattle.rt_policy.specs.Resolution.{own_table, own_column, is_own, is_qualified_by, column_found};

use crate::meaning::Found;
use crate::{ColumnView, Scope, TableView};
use rt_value::Text;
use std::alloc::AllocError;

/// The table that an EXISTS reads, by its number, and the name that qualifies its columns.
#[derive(Clone, Copy)]
pub struct InnerTable<'a> {
    pub number: u32,
    pub table: &'a TableView,
    pub qualifier: &'a str,
}

/// The first table of a schema and a name, and its number.
pub fn table_named<'a>(scope: &'a Scope, schema: &str, name: &str) -> Option<(usize, &'a TableView)>
    ensures { option_map (λ t. (t.0, t.1.now)) result ≡ table_named scope.now schema.now name.now }
{
    let mut tables = scope.tables.get().iter().enumerate();
    tables.find(|(_, table)| table.schema.get() == schema && table.name.get() == name)
}

/// The first column of a name, and its number.
fn column_named<'a>(name: &str, table: &'a TableView) -> Option<(usize, &'a ColumnView)>
    ensures { option_map (λ c. (c.0, c.1.now)) result ≡ column_named name.now table.now }
{
    let mut columns = table.columns.get().iter().enumerate();
    columns.find(|(_, column)| column.name.get() == name)
}

/// Fails where the column's number is 2^32 or more.
fn found_as(inner: bool, name: &str, table: &TableView) -> Result<Option<Found>, AllocError>
    ensures { IfOk result (λ f. f ≡ option_map (found_as inner) (column_named name.now table.now)) }
{
    let Some((number, column)) = column_named(name, table) else {
        return Ok(None);
    };
    let Ok(number) = u32::try_from(number) else {
        return Err(AllocError);
    };
    Ok(Some(Found {
        inner,
        column: number,
        kind: column.kind,
    }))
}

fn inner_column(name: &str, at: Option<InnerTable<'_>>) -> Result<Option<Found>, AllocError>
    ensures { IfOk result (λ f. f ≡ inner_column name.now (option_map reading_at at.entry)) }
{
    match at {
        None => Ok(None),
        Some(inner) => found_as(true, name, inner.table),
    }
}

fn own_table(scope: &Scope) -> Option<&TableView>
    ensures { option_copied result ≡ own_table scope.now }
{
    scope.tables.get().get(scope.table as usize)
}

fn own_column(name: &str, scope: &Scope) -> Result<Option<Found>, AllocError>
    ensures { IfOk result (λ f. f ≡ own_column name.now scope.now) }
{
    match own_table(scope) {
        None => Ok(None),
        Some(table) => found_as(false, name, table),
    }
}

fn is_qualified_by(qualifier: &str, at: Option<InnerTable<'_>>) -> bool
    ensures { result ≡ is_qualified_by qualifier.now (option_map reading_at at.entry) }
{
    match at {
        None => false,
        Some(inner) => qualifier == inner.qualifier,
    }
}

/// Whether the policy's own table has this name.
fn is_own(qualifier: &str, scope: &Scope) -> bool
    ensures { result ≡ is_own qualifier.now scope.now }
{
    match own_table(scope) {
        None => false,
        Some(table) => qualifier == table.name.get(),
    }
}

/// The column that a name with or without a qualifier stands for, inside an EXISTS or outside of
/// one. Fails where the column's number is 2^32 or more.
pub fn column_found(
    scope: &Scope,
    at: Option<InnerTable<'_>>,
    qualifier: &Option<Text>,
    name: &str,
) -> Result<Option<Found>, AllocError>
    ensures { IfOk result (λ f.
        f ≡ column_found scope.now (option_map reading_at at.entry) qualifier.now name.now) }
{
    let Some(qualifier) = qualifier else {
        return match inner_column(name, at)? {
            None => own_column(name, scope),
            Some(found) => Ok(Some(found)),
        };
    };
    if is_qualified_by(qualifier.get(), at) {
        inner_column(name, at)
    } else if is_own(qualifier.get(), scope) {
        own_column(name, scope)
    } else {
        Ok(None)
    }
}
