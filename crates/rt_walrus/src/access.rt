//! What the lists of a catalogue say.
ghost use Rattle.std.specs.Prelude.{◌≡◌, slice_get, None};
ghost use Rattle.std.specs.Option.{option_copied};
ghost use Rattle.rt_catalog.specs.Access.{bypasses as may_bypass, is_or_every};
ghost use Rattle.rt_catalog.specs.Access.{is_secured as has_security};
ghost use Rattle.rt_catalog.specs.Access.{may_select as selects, permits as allows, table_at};
ghost use Rattle.rt_change.specs.Verdicts.{may_select_key as selects_key};
ghost use Rattle.rt_walrus.specs.Keys.{columns_at as columns_of, key_at};

use rt_catalog::{Catalog, Column, Grant};

fn is_or_every(named: Option<u32>, number: u32) -> bool
    ensures { result ≡ is_or_every named number }
{
    match named {
        None => true,
        Some(named) => named == number,
    }
}

fn permits(grant: &Grant, role: u32, table: u32, column: u32) -> bool
    ensures { result ≡ allows role table column grant.now }
{
    grant.table == table && is_or_every(grant.column, column) && is_or_every(grant.role, role)
}

/// Whether the role may SELECT the column: some grant names both.
pub fn may_select(catalog: &Catalog, role: u32, table: u32, column: u32) -> bool
    ensures { result ≡ selects catalog.now role table column }
{
    catalog
        .grants
        .get()
        .iter()
        .any(|grant| permits(grant, role, table, column))
}

/// The schema and the name of a table, empty of a number that no table has.
pub fn names_at(catalog: &Catalog, table: u32) -> (&str, &str)
    ensures schema { result.0.now ≡ (table_at catalog.now table).schema }
    ensures name { result.1.now ≡ (table_at catalog.now table).name }
{
    match catalog.tables.get().get(table as usize) {
        None => ("", ""),
        Some(table) => (table.schema.get(), table.name.get()),
    }
}

/// The columns of a table; none of a number that no table has.
pub fn columns_at(catalog: &Catalog, table: u32) -> &[Column]
    ensures { result.now ≡ columns_of catalog.now table }
{
    match catalog.tables.get().get(table as usize) {
        None => &[],
        Some(table) => table.columns.get(),
    }
}

/// The numbers of the columns of the table's key.
pub fn key_of(catalog: &Catalog, table: u32) -> &[u32]
    ensures { result.now ≡ key_at catalog.now table }
{
    match catalog.tables.get().get(table as usize) {
        None => &[],
        Some(table) => table.key.get(),
    }
}

/// Whether the role may SELECT each column of the table's key.
pub fn may_select_key(catalog: &Catalog, role: u32, table: u32) -> bool
    ensures { result ≡ selects_key catalog.now role table }
{
    key_of(catalog, table)
        .iter()
        .all(|column| may_select(catalog, role, table, *column))
}

/// Whether the role bypasses row security.
pub fn bypasses(catalog: &Catalog, role: u32) -> bool
    ensures { result ≡ may_bypass catalog.now role }
{
    match catalog.roles.get().get(role as usize) {
        None => false,
        Some(role) => role.bypass,
    }
}

/// Whether the table has row security.
pub fn is_secured(catalog: &Catalog, table: u32) -> bool
    ensures { result ≡ has_security catalog.now table }
{
    match catalog.rules.tables.get().get(table as usize) {
        None => false,
        Some(rules) => rules.secured,
    }
}
