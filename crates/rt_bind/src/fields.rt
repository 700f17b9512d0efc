ghost use Rattle.std.specs.Prelude.{◌≡◌, ◌++◌, IfOk};
ghost use Rattle.rt_change.specs.Binding.{cells_for, faces_for, new_fields, old_fields};
ghost use Rattle.rt_bind.specs.Apart.{FieldsAreApart, RecordIsApart, ColumnsAreApart};
ghost use Rattle.rt_bind.specs.Parts.{first_fields, second_fields, parts_of};

use crate::cells::{cells_for, faces_for};
use crate::edits::edit_of;
use crate::parts::Parts;
use crate::refusals::fault_of;
use rt_catalog::Table;
use rt_change::{ChangeFault, Verb};
use rt_json::Json;
use rt_value::{Cells, List};
use rt_wal::{Field, Record};
use std::alloc::{AllocError, Global};

/// The fields of a row as it is after the change.
fn first_fields(verb: Verb, given: &Record) -> &[Field]
    requires { RecordIsApart given.now }
    ensures value { result.now ≡ first_fields verb given.now }
    ensures apart { FieldsAreApart result.now }
{
    match verb {
        Verb::Insert | Verb::Update => given.columns.get(),
        Verb::Delete | Verb::Truncate => &[],
    }
}

/// The fields of columns that are not among those.
fn second_fields(verb: Verb, given: &Record) -> &[Field]
    requires { RecordIsApart given.now }
    ensures value { result.now ≡ second_fields verb given.now }
    ensures apart { FieldsAreApart result.now }
{
    match verb {
        Verb::Update => given.identity.get(),
        Verb::Insert | Verb::Delete | Verb::Truncate => &[],
    }
}

/// The fields of the row as it was before.
fn old_fields(verb: Verb, given: &Record) -> &[Field]
    requires { RecordIsApart given.now }
    ensures value { result.now ≡ old_fields verb given.now }
    ensures apart { FieldsAreApart result.now }
{
    match verb {
        Verb::Update | Verb::Delete => given.identity.get(),
        Verb::Insert | Verb::Truncate => &[],
    }
}

fn new_cells(alloc: Global, verb: Verb, table: &Table, given: &Record) -> Result<Cells, AllocError>
    requires { RecordIsApart given.now }
    ensures { IfOk result (λ cells. cells ≡ cells_for table.now (new_fields verb given.now)) }
{
    let first = first_fields(verb, given);
    let second = second_fields(verb, given);
    cells_for(alloc, table, first, second)
}

fn old_cells(alloc: Global, verb: Verb, table: &Table, given: &Record) -> Result<Cells, AllocError>
    requires { RecordIsApart given.now }
    ensures { IfOk result (λ cells. cells ≡ cells_for table.now (old_fields verb given.now)) }
{
    cells_for(alloc, table, old_fields(verb, given), &[])
}

/// How the fields of the row after the change are shown.
pub fn new_faces(
    alloc: Global,
    verb: Verb,
    table: &Table,
    given: &Record,
) -> Result<List<Option<Json>>, AllocError>
    requires { RecordIsApart given.now }
    ensures { IfOk result (λ faces. faces ≡ faces_for table.now (new_fields verb given.now)) }
{
    let first = first_fields(verb, given);
    let second = second_fields(verb, given);
    faces_for(alloc, table, first, second)
}

/// How the fields of the row before the change are shown.
pub fn old_faces(
    alloc: Global,
    verb: Verb,
    table: &Table,
    given: &Record,
) -> Result<List<Option<Json>>, AllocError>
    requires { RecordIsApart given.now }
    ensures { IfOk result (λ faces. faces ≡ faces_for table.now (old_fields verb given.now)) }
{
    faces_for(alloc, table, old_fields(verb, given), &[])
}

/// The cells and the edit of a record, or the first reason why it doesn't fit the table.
pub fn parts_of(
    alloc: Global,
    verb: Verb,
    table: &Table,
    given: &Record,
) -> Result<Result<Parts, ChangeFault>, AllocError>
    requires record { RecordIsApart given.now }
    requires columns { ColumnsAreApart table.now.columns }
    ensures { IfOk result (λ parts. parts ≡ parts_of verb table.now given.now) }
{
    let new = new_cells(alloc, verb, table, given)?;
    if let Some(fault) = fault_of(alloc, verb, table, given, &new)? {
        return Ok(Err(fault));
    }
    let old = old_cells(alloc, verb, table, given)?;
    let edit = edit_of(alloc, verb, table, &new, &old)?;
    Ok(Ok(Parts { new, old, edit }))
}
