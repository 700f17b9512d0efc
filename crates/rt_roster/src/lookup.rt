//! What the lists of a catalogue say.
ghost use Rattle.std.specs.Prelude.{◌≡◌, ◌+◌, ◌++◌, find, map, option_map, IfOk};
ghost use Rattle.std.specs.List.{enumerate_from};
ghost use Rattle.std.specs.Str.{bytes_eq};
ghost use Rattle.rt_catalog.specs.Access.{is_or_every, permits as allows, may_select as selects};
ghost use Rattle.rt_catalog.specs.Access.{role_named, table_at, table_named};
ghost use Rattle.rt_registry.specs.Bindings.{has_schema, shown_to};
ghost use Rattle.rt_roster.specs.Meant.{is_named, shown_column};

use rt_catalog::{Catalog, Column, Grant, Role, Table};
use rt_filter::Shown;
use rt_value::Text;
use std::alloc::{AllocError, Global};

/// The first role of a name, with its number.
fn find_role<'a>(catalog: &'a Catalog, name: &Text) -> Option<(usize, &'a Role)>
    ensures { option_map (λ r. (r.0, r.1.now)) result
        ≡ find (λ r. bytes_eq r.1.name name.now) (enumerate_from 0 catalog.now.roles) }
{
    let mut roles = catalog.roles.get().iter().enumerate();
    roles.find(|(_, role)| role.name == *name)
}

/// The number of the first role of a name.
pub fn role_number(catalog: &Catalog, name: &Text) -> Option<usize>
    ensures { result ≡ role_named catalog.now name.now }
{
    match find_role(catalog, name) {
        Some((number, _)) => Some(number),
        None => None,
    }
}

/// The first table of a schema and a name, with its number.
fn find_table<'a>(catalog: &'a Catalog, schema: &Text, name: &Text) -> Option<(usize, &'a Table)>
    ensures { option_map (λ t. (t.0, t.1.now)) result
        ≡ find (is_named schema.now name.now) (enumerate_from 0 catalog.now.tables) }
{
    let mut tables = catalog.tables.get().iter().enumerate();
    tables.find(|(_, table)| table.schema == *schema && table.name == *name)
}

/// The number of the first table of a schema and a name.
pub fn table_number(catalog: &Catalog, schema: &Text, name: &Text) -> Option<usize>
    ensures { result ≡ table_named catalog.now schema.now name.now }
{
    match find_table(catalog, schema, name) {
        Some((number, _)) => Some(number),
        None => None,
    }
}

/// Whether the schema has a table.
pub fn has_schema(catalog: &Catalog, schema: &Text) -> bool
    ensures { result ≡ has_schema catalog.now schema.now }
{
    let tables = catalog.tables.get();
    tables.iter().any(|table| table.schema == *schema)
}

fn is_or_every(named: Option<u32>, number: usize) -> bool
    ensures { result ≡ is_or_every named number }
{
    match named {
        None => true,
        Some(named) => named as usize == number,
    }
}

fn permits(grant: &Grant, role: u32, table: u32, column: usize) -> bool
    ensures { result ≡ allows role table column grant.now }
{
    grant.table == table
        && is_or_every(grant.column, column)
        && is_or_every(grant.role, role as usize)
}

/// Whether the role may SELECT the column: some grant names both.
fn may_select(catalog: &Catalog, role: u32, table: u32, column: usize) -> bool
    ensures { result ≡ selects catalog.now role table column }
{
    let grants = catalog.grants.get();
    grants
        .iter()
        .any(|grant| permits(grant, role, table, column))
}

/// The columns of a table; none where there is no such table.
fn columns_of(catalog: &Catalog, table: u32) -> &[Column]
    ensures { result.now ≡ (table_at catalog.now table).columns }
{
    match catalog.tables.get().get(table as usize) {
        Some(table) => table.columns.get(),
        None => &[],
    }
}

/// A column as the role sees it.
fn shown_column(
    alloc: Global,
    catalog: &Catalog,
    role: u32,
    table: u32,
    place: usize,
    column: &Column,
) -> Result<Shown, AllocError>
    ensures { IfOk result (λ s. s ≡ shown_column catalog.now role table (place, column.now)) }
{
    Ok(Shown {
        name: column.name.copy(alloc)?,
        kind: column.kind,
        selectable: may_select(catalog, role, table, place),
    })
}

/// The table's columns as the role sees them.
#[tactic(auto, using(crate::proofs::Columns::shown_none, crate::proofs::Columns::shown_more, crate::proofs::Columns::shown_all))]
pub fn shown_to(
    alloc: Global,
    catalog: &Catalog,
    role: u32,
    table: u32,
) -> Result<Vec<Shown>, AllocError>
    ensures { IfOk result (λ v. v.items ≡ shown_to catalog.now role table) }
{
    let columns = columns_of(catalog, table);
    let mut shown = Vec::with_capacity(alloc, columns.len())?;
    for (place, column) in columns.iter().enumerate() {
        shown.push(shown_column(alloc, catalog, role, table, place, column)?)?;
    }
    Ok(shown)
}
