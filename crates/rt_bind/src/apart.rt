ghost use Rattle.std.specs.Prelude.{◌≡◌, ◌↔◌, IsTrue};
ghost use Rattle.std.specs.List.{list_any, list_all};
ghost use Rattle.std.specs.Str.{bytes_eq};
ghost use Rattle.rt_bind.specs.Apart.{CatalogIsApart, column_names, columns_are_apart};

use rt_catalog::{Catalog, Column};
use rt_value::Text;

/// Whether a column has the name.
fn has_column(columns: &[Column], name: &Text) -> bool
    ensures { result ≡ list_any (bytes_eq name.now) (column_names columns.now) }
{
    for column in columns {
        if *name == column.name {
            return true;
        }
    }
    false
}

/// Whether no two columns have one name. Compares each with each.
#[tactic(auto, using(crate::proofs::Columns::apart_steps))]
fn columns_are_apart(columns: &[Column]) -> bool
    ensures { result ≡ columns_are_apart columns.now }
{
    for i in 0..columns.len() {
        if has_column(&columns[i + 1..], &columns[i].name) {
            return false;
        }
    }
    true
}

fn tables_are_apart(catalog: &Catalog) -> bool
    ensures { result ≡ list_all (λ t. columns_are_apart t.columns) catalog.now.tables }
{
    let tables = catalog.tables.get();
    tables
        .iter()
        .all(|table| columns_are_apart(table.columns.get()))
}

/// Whether no two columns of a table have one name, as `bind` asks for. It is so of each catalogue
/// that was read from a text.
pub fn is_apart(catalog: &Catalog) -> bool
    ensures { IsTrue result ↔ CatalogIsApart catalog.now }
{
    tables_are_apart(catalog)
}
