ghost use Rattle.std.specs.Prelude.{◌≡◌, IfOk};
ghost use Rattle.rt_change.specs.Binding.{fields_fit, used, key_given};
ghost use Rattle.rt_bind.specs.Apart.{ColumnsAreApart};
ghost use Rattle.rt_bind.specs.Checks.{unless, field_fits, checks};

use crate::keys::{key_column_without, keys_differ};
use crate::lookup::column_named;
use crate::values::is_of;
use rt_catalog::Table;
use rt_change::{ChangeFault, Verb};
use rt_value::Cells;
use rt_wal::{Field, Record};
use std::alloc::{AllocError, Global};

/// The fault of a field, which stands at a place among others.
fn field_fault(
    alloc: Global,
    table: &Table,
    at: usize,
    field: &Field,
) -> Result<Option<ChangeFault>, AllocError>
    requires { ColumnsAreApart table.now.columns }
    ensures { IfOk result (λ fault. unless fault ≡ field_fits table.now field.now) }
{
    let Some(column) = column_named(table, at, &field.name) else {
        let name = field.name.copy(alloc)?;
        return Ok(Some(ChangeFault::ColumnUnknown { name }));
    };
    if is_of(alloc, column.kind, &field.tree)? {
        Ok(None)
    } else {
        let name = field.name.copy(alloc)?;
        Ok(Some(ChangeFault::BadValue { name }))
    }
}

/// The fault of the first field that has one.
#[tactic(auto, using(crate::proofs::Fits::fit_steps))]
fn fields_fault(
    alloc: Global,
    table: &Table,
    fields: &[Field],
) -> Result<Option<ChangeFault>, AllocError>
    requires { ColumnsAreApart table.now.columns }
    ensures { IfOk result (λ fault. unless fault ≡ fields_fit table.now fields.now) }
{
    for (at, field) in fields.iter().enumerate() {
        if let Some(fault) = field_fault(alloc, table, at, field)? {
            return Ok(Some(fault));
        }
    }
    Ok(None)
}

/// The fault of the fields that a verb uses.
fn used_fault(
    alloc: Global,
    verb: Verb,
    table: &Table,
    fields: &[Field],
) -> Result<Option<ChangeFault>, AllocError>
    requires { ColumnsAreApart table.now.columns }
    ensures { IfOk result (λ fault.
        unless fault ≡ fields_fit table.now (used verb fields.now)) }
{
    match verb {
        Verb::Truncate => Ok(None),
        Verb::Insert | Verb::Update | Verb::Delete => fields_fault(alloc, table, fields),
    }
}

/// The fault of new cells that don't give the key, where they have to.
fn key_fault(
    alloc: Global,
    verb: Verb,
    table: &Table,
    new: &Cells,
) -> Result<Option<ChangeFault>, AllocError>
    ensures { IfOk result (λ fault. unless fault ≡ key_given verb table.now new.now) }
{
    match verb {
        Verb::Insert | Verb::Update => match key_column_without(table, new) {
            Some(name) => Ok(Some(ChangeFault::BadValue {
                name: name.copy(alloc)?,
            })),
            None => Ok(None),
        },
        Verb::Delete | Verb::Truncate => Ok(None),
    }
}

/// Why a record that gives these new cells doesn't fit the table, the first reason.
pub fn fault_of(
    alloc: Global,
    verb: Verb,
    table: &Table,
    given: &Record,
    new: &Cells,
) -> Result<Option<ChangeFault>, AllocError>
    requires { ColumnsAreApart table.now.columns }
    ensures { IfOk result (λ fault. unless fault ≡ checks verb table.now given.now new.now) }
{
    if keys_differ(verb, table, given) {
        return Ok(Some(ChangeFault::KeyDiffers));
    }
    if let Some(fault) = used_fault(alloc, verb, table, given.columns.get())? {
        return Ok(Some(fault));
    }
    if let Some(fault) = used_fault(alloc, verb, table, given.identity.get())? {
        return Ok(Some(fault));
    }
    key_fault(alloc, verb, table, new)
}
