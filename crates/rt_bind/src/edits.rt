ghost use Rattle.std.specs.Prelude.{◌≡◌, IfOk};
ghost use Rattle.std.specs.Option.{option_or};
ghost use Rattle.rt_change.specs.Binding.{key_in, put, removal, edit_by, edit_of};

use crate::keys::key_in;
use rt_catalog::Table;
use rt_change::Verb;
use rt_value::{Cells, Edit, Key, Value};
use std::alloc::{AllocError, Global};

fn copied(alloc: Global, cell: &Option<Value>) -> Result<Option<Value>, AllocError>
    ensures { IfOk result (λ copy. copy ≡ cell.now) }
{
    match cell {
        Some(value) => Ok(Some(value.copy(alloc)?)),
        None => Ok(None),
    }
}

/// A put of the cells under the new key, where there is one.
fn put(alloc: Global, old: Option<Key>, new: Option<Key>, cells: &Cells) -> Result<Edit, AllocError>
    ensures { IfOk result (λ edit. edit ≡ put old new cells.now) }
{
    match new {
        None => Ok(Edit::Nothing),
        Some(new) => Ok(Edit::Put {
            old,
            new,
            cells: cells.copy_by(alloc, |cell| copied(alloc, cell))?,
        }),
    }
}

fn removal(key: Option<Key>) -> Edit
    ensures { result ≡ removal key }
{
    match key {
        None => Edit::Nothing,
        Some(key) => Edit::Remove { key },
    }
}

/// The key that is taken away: the old cells', or else the new cells'.
fn old_key(
    alloc: Global,
    table: &Table,
    new: &Cells,
    old: &Cells,
) -> Result<Option<Key>, AllocError>
    ensures { IfOk result (λ key.
        key ≡ option_or (key_in table.now old.now) (key_in table.now new.now)) }
{
    match key_in(alloc, table, old)? {
        Some(key) => Ok(Some(key)),
        None => key_in(alloc, table, new),
    }
}

fn edit_by(
    alloc: Global,
    verb: Verb,
    table: &Table,
    new: &Cells,
    old: &Cells,
) -> Result<Edit, AllocError>
    ensures { IfOk result (λ edit. edit ≡ edit_by verb table.now new.now old.now) }
{
    match verb {
        Verb::Insert => put(alloc, None, key_in(alloc, table, new)?, new),
        Verb::Update => {
            let from = old_key(alloc, table, new, old)?;
            put(alloc, from, key_in(alloc, table, new)?, new)
        }
        Verb::Delete => Ok(removal(key_in(alloc, table, old)?)),
        Verb::Truncate => Ok(Edit::Clear),
    }
}

/// What a change with these cells does to its table's rows. A table without a key keeps none.
pub fn edit_of(
    alloc: Global,
    verb: Verb,
    table: &Table,
    new: &Cells,
    old: &Cells,
) -> Result<Edit, AllocError>
    ensures { IfOk result (λ edit. edit ≡ edit_of verb table.now new.now old.now) }
{
    if table.key.get().is_empty() {
        Ok(Edit::Nothing)
    } else {
        edit_by(alloc, verb, table, new, old)
    }
}
