ghost use Rattle.std.specs.Prelude.{◌≡◌, ◌++◌, IfOk};
ghost use Rattle.rt_change.specs.Binding.{cell_for, cells_for, face_for, faces_for};
ghost use Rattle.rt_bind.specs.Apart.{FieldsAreApart};

use crate::lookup::tree_for;
use crate::values::{from_json, shown_copy};
use rt_catalog::{Column, Table};
use rt_json::Json;
use rt_value::{Cells, List, Value};
use rt_wal::Field;
use std::alloc::{AllocError, Global};

fn cell_for(
    alloc: Global,
    first: &[Field],
    second: &[Field],
    at: usize,
    column: &Column,
) -> Result<Option<Value>, AllocError>
    requires first { FieldsAreApart first.now }
    requires second { FieldsAreApart second.now }
    ensures { IfOk result (λ cell. cell ≡ cell_for (first.now ++ second.now) column.now) }
{
    match tree_for(first, second, at, column) {
        Some(tree) => from_json(alloc, column.kind, tree),
        None => Ok(None),
    }
}

/// A table's cells: for each column the value that a field of its name gives it, of the first list
/// or else the second.
pub fn cells_for(
    alloc: Global,
    table: &Table,
    first: &[Field],
    second: &[Field],
) -> Result<Cells, AllocError>
    requires first { FieldsAreApart first.now }
    requires second { FieldsAreApart second.now }
    ensures { IfOk result (λ cells. cells ≡ cells_for table.now (first.now ++ second.now)) }
{
    let columns = table.columns.get();
    let mut cells = Vec::with_capacity(alloc, columns.len())?;
    for (at, column) in columns.iter().enumerate() {
        cells.push(cell_for(alloc, first, second, at, column)?)?;
    }
    Ok(List::new(cells))
}

fn face_for(
    alloc: Global,
    first: &[Field],
    second: &[Field],
    at: usize,
    column: &Column,
) -> Result<Option<Json>, AllocError>
    requires first { FieldsAreApart first.now }
    requires second { FieldsAreApart second.now }
    ensures { IfOk result (λ face. face ≡ face_for (first.now ++ second.now) column.now) }
{
    match tree_for(first, second, at, column) {
        Some(tree) => Ok(Some(shown_copy(alloc, column.kind, tree)?)),
        None => Ok(None),
    }
}

/// For each column of a table how the tree is shown that a field of its name gives it, of the first
/// list or else the second.
pub fn faces_for(
    alloc: Global,
    table: &Table,
    first: &[Field],
    second: &[Field],
) -> Result<List<Option<Json>>, AllocError>
    requires first { FieldsAreApart first.now }
    requires second { FieldsAreApart second.now }
    ensures { IfOk result (λ faces. faces ≡ faces_for table.now (first.now ++ second.now)) }
{
    let columns = table.columns.get();
    let mut faces = Vec::with_capacity(alloc, columns.len())?;
    for (at, column) in columns.iter().enumerate() {
        faces.push(face_for(alloc, first, second, at, column)?)?;
    }
    Ok(List::new(faces))
}
