ghost use Rattle.std.specs.Prelude.{◌≡◌, ◌∷◌, [], ℕ, List, IfOk, MatchResult};
ghost use Rattle.rt_form.specs.Statements as spec;
ghost use Rattle.rt_form.specs.Statements.{AreStatements, IsCatalogue};
ghost use Rattle.rt_form.specs.declared.catalogue.Catalogue as c;

use crate::fault::FormFault;
use crate::lexing::words_of;
use crate::statements::names_in;
use crate::{Catalogue, Column, ColumnType, Table};
use rt_value::{List, Text};
use std::alloc::{AllocError, Global};

fn key_place(second_is_key: bool) -> usize
    ensures { result ≡ spec.key_place second_is_key }
{
    if second_is_key { 1 } else { 0 }
}

fn column_in(alloc: Global, name: &Text, column_type: ColumnType) -> Result<Column, AllocError>
    ensures name { IfOk result (λ column. column.name ≡ name.now) }
    ensures column_type { IfOk result (λ column. column.column_type ≡ column_type) }
{
    Ok(Column {
        name: name.copy(alloc)?,
        column_type,
    })
}

fn columns_in(alloc: Global, first: Column, second: Column) -> Result<List<Column>, AllocError>
    ensures { IfOk result (λ columns. columns ≡ first ∷ second ∷ []) }
{
    let mut columns = Vec::new(alloc);
    columns.push(first)?;
    columns.push(second)?;
    Ok(List::new(columns))
}

fn catalogue_in(
    alloc: Global,
    table: &Text,
    columns: List<Column>,
    key: usize,
    role: &Text,
) -> Result<Catalogue, AllocError>
    ensures table { IfOk result (λ catalogue. catalogue.table.name ≡ table.now) }
    ensures columns { IfOk result (λ catalogue. catalogue.table.columns ≡ columns) }
    ensures key { IfOk result (λ catalogue. catalogue.table.key ≡ key) }
    ensures role { IfOk result (λ catalogue. catalogue.role ≡ role.now) }
{
    let name = table.copy(alloc)?;
    let role = role.copy(alloc)?;
    Ok(Catalogue {
        table: Table { name, columns, key },
        role,
    })
}

/// The catalogue that the words are.
fn catalogue_of(alloc: Global, words: &[Text]) -> Result<Catalogue, FormFault>
    ensures found { IfOk result (λ catalogue. AreStatements words.now catalogue) }
    ensures only { (catalogue : c.Catalogue) → AreStatements words.now catalogue
        → MatchResult result (λ found. found ≡ catalogue) (λ fault. fault ≡ FormFault.NoMemory) }
{
    match names_in(words) {
        Some(names) => {
            let columns = names.table.columns;
            let first = column_in(alloc, columns.first, columns.first_type)?;
            let second = column_in(alloc, columns.second, columns.second_type)?;
            let both = columns_in(alloc, first, second)?;
            let key = key_place(columns.second_is_key);
            Ok(catalogue_in(alloc, names.table.name, both, key, names.role)?)
        }
        None => Err(FormFault::NotBuilt),
    }
}

/// The catalogue that a text is. `NotBuilt` where it isn't three statements of the built form: a
/// table of two columns with one key column, a role, and the grant to it.
pub fn read_catalogue(alloc: Global, bytes: &[u8]) -> Result<Catalogue, FormFault>
    ensures found { IfOk result (λ catalogue. IsCatalogue bytes.now catalogue) }
    ensures only { (catalogue : c.Catalogue) → IsCatalogue bytes.now catalogue
        → MatchResult result (λ found. found ≡ catalogue) (λ fault. fault ≡ FormFault.NoMemory) }
{
    let Ok(text) = std::str::from_utf8(bytes) else {
        return Err(FormFault::NotBuilt);
    };
    let words = words_of(alloc, text)?;
    Ok(catalogue_of(alloc, words.as_slice())?)
}
