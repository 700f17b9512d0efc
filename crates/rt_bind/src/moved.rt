ghost use Rattle.std.specs.Prelude.{◌≡◌, ◌++◌, IfOk, OnOk};
ghost use Rattle.rt_change.specs.Binding.{faces_for, new_fields, old_fields};
ghost use Rattle.rt_bind.specs.Apart.{FieldsAreApart, RecordIsApart};
ghost use Rattle.rt_bind.specs.Straight.{are_straight, faces_in_turn, faces_with};

use crate::cells::faces_for;
use crate::values::shown;
use rt_catalog::{Column, Table};
use rt_change::Verb;
use rt_json::Json;
use rt_value::List;
use rt_wal::{Field, Record};
use std::alloc::{AllocError, Global};

/// How the columns of a row are shown.
type Faces = List<Option<Json>>;

/// Whether the fields are the columns in their order.
#[tactic(auto, using(crate::proofs::Straight::straight_steps))]
fn are_straight(columns: &[Column], fields: &[Field]) -> bool
    ensures { result ≡ are_straight columns.now fields.now }
{
    if columns.len() != fields.len() {
        return false;
    }
    for i in 0..columns.len() {
        if fields[i].name != columns[i].name {
            return false;
        }
    }
    true
}

/// Shows the field's tree in the first column that has no face yet, where there is one.
fn push_face(
    alloc: Global,
    columns: &[Column],
    faces: &mut Vec<Option<Json>>,
    field: Field,
) -> Result<(), AllocError>
    ensures { OnOk result (faces.new.items ≡ faces_with columns.now faces.old.items field) }
{
    let Field { tree, .. } = field;
    match columns.get(faces.as_slice().len()) {
        Some(column) => {
            faces.push(Some(shown(alloc, column.kind, tree)?))?;
            Ok(())
        }
        None => Ok(()),
    }
}

/// The trees of fields as they are shown, each in the column at its place. The trees are moved.
fn faces_in_turn(
    alloc: Global,
    columns: &[Column],
    fields: List<Field>,
) -> Result<Faces, AllocError>
    ensures { IfOk result (λ faces. faces ≡ faces_in_turn columns.now fields) }
{
    let mut faces = Vec::with_capacity(alloc, columns.len())?;
    for field in fields.into_inner() {
        push_face(alloc, columns, &mut faces, field)?;
    }
    Ok(List::new(faces))
}

/// The trees that the fields of the first list, and behind them those of the second, give the
/// columns, as they are shown. Where the first list's fields are the columns in their order, its
/// trees are moved, and else copied.
fn faces_from(
    alloc: Global,
    table: &Table,
    first: List<Field>,
    second: &[Field],
) -> Result<Faces, AllocError>
    requires first { FieldsAreApart first }
    requires second { FieldsAreApart second.now }
    ensures { IfOk result (λ faces. faces ≡ faces_for table.now (first ++ second.now)) }
{
    let columns = table.columns.get();
    if are_straight(columns, first.get()) {
        faces_in_turn(alloc, columns, first)
    } else {
        faces_for(alloc, table, first.get(), second)
    }
}

/// The trees of a record as they are shown, after the change and before it.
pub fn trees_from(
    alloc: Global,
    verb: Verb,
    table: &Table,
    given: Record,
) -> Result<(Faces, Faces), AllocError>
    requires { RecordIsApart given }
    ensures { IfOk result (λ trees. (trees.0 ≡ faces_for table.now (new_fields verb given))
        × (trees.1 ≡ faces_for table.now (old_fields verb given))) }
{
    let Record {
        columns,
        identity,
        ..
    } = given;
    match verb {
        Verb::Insert => {
            let new = faces_from(alloc, table, columns, &[])?;
            Ok((new, faces_for(alloc, table, &[], &[])?))
        }
        Verb::Update => {
            let new = faces_from(alloc, table, columns, identity.get())?;
            Ok((new, faces_from(alloc, table, identity, &[])?))
        }
        Verb::Delete => {
            let new = faces_for(alloc, table, &[], &[])?;
            Ok((new, faces_from(alloc, table, identity, &[])?))
        }
        Verb::Truncate => {
            let new = faces_for(alloc, table, &[], &[])?;
            Ok((new, faces_for(alloc, table, &[], &[])?))
        }
    }
}
