ghost use Rattle.std.specs.Prelude.{◌≡◌, ◌⊎◌, Ok, Err, IfOk, IfErr};
ghost use Rattle.rt_change.specs.Binding.{bound_to, verb_of, change_of};
ghost use Rattle.rt_bind.specs.Apart.{RecordIsApart, ColumnsAreApart, CatalogIsApart};
ghost use Rattle.rt_bind.specs.Parts.{place_of};

use crate::fields::{new_faces, old_faces, parts_of};
use crate::lookup::{table_at, table_number};
use crate::moved::trees_from;
use rt_catalog::{Catalog, Table};
use rt_change::{Bound, Change, ChangeFault, Verb};
use rt_value::Text;
use rt_wal::{Action, Record};
use std::alloc::{AllocError, Global};

fn verb_of(action: Action) -> Option<Verb>
    ensures { result ≡ verb_of action }
{
    match action {
        Action::Insert => Some(Verb::Insert),
        Action::Update => Some(Verb::Update),
        Action::Delete => Some(Verb::Delete),
        Action::Truncate => Some(Verb::Truncate),
        Action::Begin | Action::Commit | Action::Message => None,
    }
}

fn copied(alloc: Global, text: &Option<Text>) -> Result<Option<Text>, AllocError>
    ensures { IfOk result (λ copy. copy ≡ text.now) }
{
    match text {
        Some(text) => Ok(Some(text.copy(alloc)?)),
        None => Ok(None),
    }
}

/// What a record does to the table of a number.
fn bound_to(
    alloc: Global,
    number: u32,
    verb: Verb,
    table: &Table,
    given: &Record,
) -> Result<Result<Bound, ChangeFault>, AllocError>
    requires record { RecordIsApart given.now }
    requires columns { ColumnsAreApart table.now.columns }
    ensures { IfOk result (λ bound. bound ≡ bound_to number table.now given.now verb) }
{
    let parts = match parts_of(alloc, verb, table, given)? {
        Ok(parts) => parts,
        Err(fault) => return Ok(Err(fault)),
    };
    let new_trees = new_faces(alloc, verb, table, given)?;
    let old_trees = old_faces(alloc, verb, table, given)?;
    let moment = copied(alloc, &given.moment)?;
    Ok(Ok(Bound::Change(Change {
        table: number,
        verb,
        has_key: !given.keys.get().is_empty(),
        size: given.size,
        moment,
        new: parts.new,
        old: parts.old,
        new_trees,
        old_trees,
        edit: parts.edit,
    })))
}

/// What a record that is taken does to the table of a number.
fn bound_from(
    alloc: Global,
    number: u32,
    verb: Verb,
    table: &Table,
    given: Record,
) -> Result<Result<Bound, ChangeFault>, AllocError>
    requires record { RecordIsApart given }
    requires columns { ColumnsAreApart table.now.columns }
    ensures { IfOk result (λ bound. bound ≡ bound_to number table.now given verb) }
{
    let parts = match parts_of(alloc, verb, table, &given)? {
        Ok(parts) => parts,
        Err(fault) => return Ok(Err(fault)),
    };
    let moment = copied(alloc, &given.moment)?;
    let has_key = !given.keys.get().is_empty();
    let size = given.size;
    let (new_trees, old_trees) = trees_from(alloc, verb, table, given)?;
    Ok(Ok(Bound::Change(Change {
        table: number,
        verb,
        has_key,
        size,
        moment,
        new: parts.new,
        old: parts.old,
        new_trees,
        old_trees,
        edit: parts.edit,
    })))
}

/// The number of the record's table and its verb, where the catalogue has the table and the record
/// is of a row or a truncate.
fn place_of(catalog: &Catalog, given: &Record) -> Option<(usize, Verb)>
    ensures { result ≡ place_of catalog.now given.now }
{
    let verb = verb_of(given.action)?;
    let number = table_number(catalog, &given.schema, &given.table)?;
    Some((number, verb))
}

/// A table's number in 32 bits. More tables than that count as want of memory.
fn narrow(number: usize) -> Result<u32, AllocError>
    ensures { IfOk result (λ n. n ≡ number) }
{
    match u32::try_from(number) {
        Ok(number) => Ok(number),
        Err(_) => Err(AllocError),
    }
}

fn change_of(
    alloc: Global,
    catalog: &Catalog,
    given: &Record,
) -> Result<Result<Bound, ChangeFault>, AllocError>
    requires record { RecordIsApart given.now }
    requires catalog { CatalogIsApart catalog.now }
    ensures { IfOk result (λ bound. bound ≡ change_of catalog.now given.now) }
{
    match place_of(catalog, given) {
        Some((number, verb)) => {
            let table = table_at(catalog, number);
            bound_to(alloc, narrow(number)?, verb, table, given)
        }
        None => Ok(Ok(Bound::Skip)),
    }
}

fn change_from(
    alloc: Global,
    catalog: &Catalog,
    given: Record,
) -> Result<Result<Bound, ChangeFault>, AllocError>
    requires record { RecordIsApart given }
    requires catalog { CatalogIsApart catalog.now }
    ensures { IfOk result (λ bound. bound ≡ change_of catalog.now given) }
{
    match place_of(catalog, &given) {
        Some((number, verb)) => {
            let table = table_at(catalog, number);
            bound_from(alloc, narrow(number)?, verb, table, given)
        }
        None => Ok(Ok(Bound::Skip)),
    }
}

/// What a record does under a catalogue: the change of its table, or nothing where it is of no row
/// and no truncate, or where the catalogue doesn't have its table.
///
/// The first reason why the record doesn't fit its table: `KeyDiffers` where it names a key that
/// isn't the table's; then for each element of its columns and then of its identity `ColumnUnknown`
/// where the table has no such column and `BadValue` where the value isn't of the column's kind;
/// then `BadValue` with the first key column that an insert or an update gives no value. `NoMemory`
/// where memory runs out, or the table's number has no place of 32 bits.
///
/// Trees are moved where the record's fields are the table's columns in their order, and else
/// copied.
pub fn bind(alloc: Global, catalog: &Catalog, given: Record) -> Result<Bound, ChangeFault>
    requires record { RecordIsApart given }
    requires catalog { CatalogIsApart catalog.now }
    ensures ok { IfOk result (λ bound. change_of catalog.now given ≡ Ok bound) }
    ensures err { IfErr result (λ e.
        (e ≡ ChangeFault.NoMemory) ⊎ (change_of catalog.now given ≡ Err e)) }
{
    match change_from(alloc, catalog, given) {
        Ok(Ok(bound)) => Ok(bound),
        Ok(Err(fault)) => Err(fault),
        Err(AllocError) => Err(ChangeFault::NoMemory),
    }
}

/// What a record does under a catalogue, without taking the record: its trees are copied. The
/// answers are those of `bind`.
pub fn bind_lent(alloc: Global, catalog: &Catalog, given: &Record) -> Result<Bound, ChangeFault>
    requires record { RecordIsApart given.now }
    requires catalog { CatalogIsApart catalog.now }
    ensures ok { IfOk result (λ bound. change_of catalog.now given.now ≡ Ok bound) }
    ensures err { IfErr result (λ e.
        (e ≡ ChangeFault.NoMemory) ⊎ (change_of catalog.now given.now ≡ Err e)) }
{
    match change_of(alloc, catalog, given) {
        Ok(Ok(bound)) => Ok(bound),
        Ok(Err(fault)) => Err(fault),
        Err(AllocError) => Err(ChangeFault::NoMemory),
    }
}
