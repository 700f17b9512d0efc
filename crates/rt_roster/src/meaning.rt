//! What a binding means for a role.
ghost use Rattle.std.specs.Prelude.{◌≡◌, codes, IfOk};
ghost use Rattle.std.specs.Option.{option_copied};
ghost use Rattle.rt_registry.specs.Bindings.{meaning_of_binding, table_for, unless_text, wanted_of};

use crate::filters::tests_for;
use crate::lookup::{has_schema, table_number};
use rt_catalog::Catalog;
use rt_filter::Wanted;
use rt_registry::{Binding, BindingWhy, Subscribed};
use rt_value::Text;
use std::alloc::{AllocError, Global};

/// The events of a word: `*`, `INSERT`, `UPDATE` or `DELETE`.
fn wanted_of(word: &str) -> Option<Wanted>
    ensures { result ≡ wanted_of word.now }
{
    match word {
        "*" => Some(Wanted::All),
        "INSERT" => Some(Wanted::Insert),
        "UPDATE" => Some(Wanted::Update),
        "DELETE" => Some(Wanted::Delete),
        _ => None,
    }
}

/// A number of a role or a table in 32 bits. More of them than that count as want of memory.
pub fn narrow(number: usize) -> Result<u32, AllocError>
    ensures { IfOk result (λ n. n ≡ number) }
{
    match u32::try_from(number) {
        Ok(number) => Ok(number),
        Err(_) => Err(AllocError),
    }
}

/// The table's name; none for every table of the schema.
fn table_name(binding: &Binding) -> Option<&Text>
    ensures { option_copied result ≡ unless_text (codes "*") binding.now.table }
{
    let table = binding.table.as_ref()?;
    if table.get() == "*" {
        None
    } else {
        Some(table)
    }
}

/// Every table of the schema, which must have one.
fn every_table(catalog: &Catalog, schema: &Text) -> Result<Option<u32>, BindingWhy>
    ensures { result ≡ table_for catalog.now schema.now None }
{
    if has_schema(catalog, schema) {
        Ok(None)
    } else {
        Err(BindingWhy::Table)
    }
}

/// The table of a name.
fn one_table(
    catalog: &Catalog,
    schema: &Text,
    name: &Text,
) -> Result<Result<Option<u32>, BindingWhy>, AllocError>
    ensures { IfOk result (λ r. r ≡ table_for catalog.now schema.now (Some name.now)) }
{
    match table_number(catalog, schema, name) {
        Some(number) => Ok(Ok(Some(narrow(number)?))),
        None => Ok(Err(BindingWhy::Table)),
    }
}

/// The table of a binding, or every table of its schema.
fn table_for(
    catalog: &Catalog,
    binding: &Binding,
) -> Result<Result<Option<u32>, BindingWhy>, AllocError>
    ensures { IfOk result (λ r. r ≡ table_for catalog.now binding.now.schema
        (unless_text (codes "*") binding.now.table)) }
{
    match table_name(binding) {
        Some(name) => one_table(catalog, &binding.schema, name),
        None => Ok(every_table(catalog, &binding.schema)),
    }
}

fn copied_text(alloc: Global, text: &Option<Text>) -> Result<Option<Text>, AllocError>
    ensures { IfOk result (λ copy. copy ≡ text.now) }
{
    match text {
        Some(text) => Ok(Some(text.copy(alloc)?)),
        None => Ok(None),
    }
}

fn copied(alloc: Global, binding: &Binding) -> Result<Binding, AllocError>
    ensures { IfOk result (λ copy. copy ≡ binding.now) }
{
    Ok(Binding {
        wanted: binding.wanted.copy(alloc)?,
        schema: binding.schema.copy(alloc)?,
        table: copied_text(alloc, &binding.table)?,
        filters: binding.filters.copy_by(alloc, |text| text.copy(alloc))?,
        listed: binding.listed,
    })
}

/// What a binding means for a role, or the first reason against it.
#[tactic(auto, using(crate::proofs::Tested::filters_are))]
pub fn meaning_of_binding(
    alloc: Global,
    catalog: &Catalog,
    role: u32,
    binding: &Binding,
) -> Result<Result<Subscribed, BindingWhy>, AllocError>
    ensures { IfOk result (λ r. r ≡ meaning_of_binding catalog.now role binding.now) }
{
    let Some(wanted) = wanted_of(binding.wanted.get()) else {
        return Ok(Err(BindingWhy::Event));
    };
    let table = match table_for(catalog, binding)? {
        Ok(table) => table,
        Err(why) => return Ok(Err(why)),
    };
    let filters = binding.filters.get();
    let tests = match tests_for(alloc, catalog, role, table, binding.listed, filters)? {
        Ok(tests) => tests,
        Err(why) => return Ok(Err(why)),
    };
    let binding = copied(alloc, binding)?;
    Ok(Ok(Subscribed {
        binding,
        wanted,
        table,
        tests,
    }))
}
