ghost use Rattle.std.specs.Prelude.{◌≡◌, ◌≤◌, [], IfOk, OnOk, OnErr, true, length, slice_get};
ghost use Rattle.std.specs.Arc.{arc_value};
ghost use Rattle.std.specs.BTreeMap.{insert_entry};
ghost use Rattle.std.specs.Option.{option_copied};
ghost use Rattle.rt_value.specs.Order.{key_cmp};
ghost use Rattle.rt_value.specs.Edits.{edited_rows, filled, old_values, row_of, rows_unmoved};
ghost use Rattle.rt_value.specs.Lent.{key_of};
ghost use Rattle.rt_value.specs.Prefix.{rows_onward};
ghost use Rattle.rt_value.specs.Rows.{is_rising, row_at, rows_behind, rows_with, rows_without, values_at};

use crate::lent_key::LentKey;
use rt_ptree::Tree;
use rt_value::{Cells, Edit, Key, LentValue, Row, Value, fill};
use std::alloc::{AllocError, Global};
use std::marker::Model;
use std::sync::Arc;

/// The rows of a table, in the order of their keys. Copies share the rows.
#[derive(Drop)]
pub struct Table {
    rows: Tree<Key, Row>,
}

impl Model for Table {
    ghost use Rattle.std.specs.Prelude as p;
    ghost use Rattle.rt_value.specs.declared.row.Row.{Row};
    ghost use Rattle.rt_replica.specs.Keyed.{rows_of, IsKeyed};

    ghost Value = { p.List Row };

    ghost view = { λ t. rows_of t.rows };

    ghost invariant = { λ t. IsKeyed t.rows };
}

impl Table {
    /// The table with no row.
    pub fn new(alloc: Global) -> Self
        ensures { result ≡ [] }
    {
        Table {
            rows: Tree::new(alloc),
        }
    }

    pub fn len(&self) -> usize
        ensures len { result ≡ length self.now }
        ensures rising { is_rising self.now ≡ true }
    {
        self.rows.len()
    }

    /// An equal table, which shares all rows.
    pub fn snapshot(&self) -> Result<Self, AllocError>
        ensures { IfOk result (λ t. t ≡ self.now) }
    {
        Ok(Table {
            rows: self.rows.snapshot()?,
        })
    }

    /// The row with the key.
    pub fn get(&self, key: &Key) -> Option<&Row>
        ensures { option_copied result ≡ row_at key.now self.now }
    {
        self.rows.get(key)
    }

    /// The row with the least key.
    pub fn first(&self) -> Option<&Row>
        ensures { option_copied result ≡ slice_get self.now 0 }
    {
        match self.rows.first() {
            Some((_, row)) => Some(row),
            None => None,
        }
    }

    /// The row with the least key that is greater.
    pub fn after(&self, key: &Key) -> Option<&Row>
        ensures { option_copied result ≡ slice_get (rows_behind key.now self.now) 0 }
    {
        match self.rows.after(key) {
            Some((_, row)) => Some(row),
            None => None,
        }
    }

    /// The row with the least key that isn't less than the values.
    pub fn first_from(&self, values: &[LentValue<'_>]) -> Option<&Row>
        ensures { option_copied result ≡ slice_get (rows_onward (key_of values.now) self.now) 0 }
    {
        match self.rows.entries_from(&LentKey { values }).next() {
            Some((_, row)) => Some(row),
            None => None,
        }
    }

    /// Makes the edit. Where memory runs out, the table is as it was.
    pub fn apply(&mut self, alloc: Global, edit: &Edit) -> Result<(), AllocError>
        ensures ok { OnOk result (self.new ≡ edited_rows edit.now self.old) }
        ensures err { OnErr result (self.new ≡ self.old) }
    {
        match edit {
            Edit::Put { old, new, cells } => self.edit(alloc, old, new, cells),
            Edit::Remove { key } => self.remove(key),
            Edit::Clear => {
                *self = Table::new(alloc);
                Ok(())
            }
            Edit::Nothing => Ok(()),
        }
    }

    #[tactic(auto, using(crate::proofs::Edited::unmoved))]
    fn edit(
        &mut self,
        alloc: Global,
        old: &Option<Key>,
        new: &Key,
        cells: &Cells,
    ) -> Result<(), AllocError>
        ensures ok { OnOk result (self.new
            ≡ rows_with
            (row_of new.now (filled cells.now (old_values old.now (λ key. values_at key self.old))))
            (rows_unmoved old.now self.old)) }
        ensures err { OnErr result (self.new ≡ self.old) }
    {
        let values = fill(alloc, cells.get(), self.values_of(old))?;
        let row = Row {
            key: new.copy(alloc)?,
            values,
        };
        match old {
            None => self.put(alloc, row),
            Some(old) => self.put_from(alloc, old, row),
        }
    }

    // The values at the old key; none where there is no such key or no row.
    fn values_of(&self, old: &Option<Key>) -> &[Value]
        ensures { result.now ≡ old_values old.now (λ key. values_at key self.now) }
    {
        match old {
            None => &[],
            Some(key) => match self.get(key) {
                None => &[],
                Some(row) => row.values.get(),
            },
        }
    }

    // Puts the row in, and takes that at the old key away.
    fn put_from(&mut self, alloc: Global, old: &Key, row: Row) -> Result<(), AllocError>
        ensures ok { OnOk result (self.new ≡ rows_with row (rows_without old.now self.old)) }
        ensures err { OnErr result (self.new ≡ self.old) }
    {
        if *old == row.key {
            return self.put(alloc, row);
        }
        let mut moved = self.snapshot()?;
        moved.remove(old)?;
        moved.put(alloc, row)?;
        *self = moved;
        Ok(())
    }

    fn put(&mut self, alloc: Global, row: Row) -> Result<(), AllocError>
        ensures ok { OnOk result (self.new ≡ rows_with row self.old) }
        ensures over { OnOk result (self.new ≡ rows_with row (rows_without row.key self.old)) }
        ensures err { OnErr result (self.new ≡ self.old) }
    {
        let key = Arc::new(alloc, row.key.copy(alloc)?)?;
        let row = Arc::new(alloc, row)?;
        insert(&mut self.rows, key, row)?;
        Ok(())
    }

    fn remove(&mut self, key: &Key) -> Result<(), AllocError>
        ensures ok { OnOk result (self.new ≡ rows_without key.now self.old) }
        ensures err { OnErr result (self.new ≡ self.old) }
    {
        self.rows.remove(key)?;
        Ok(())
    }
}

// Puts the row in at the key.
fn insert(rows: &mut Tree<Key, Row>, key: Arc<Key>, row: Arc<Row>) -> Result<(), AllocError>
    ensures ok { OnOk result (rows.new ≡ insert_entry key_cmp rows.old (arc_value key) (arc_value row)) }
    ensures err { OnErr result (rows.new ≡ rows.old) }
{
    match rows.insert(key, row) {
        Ok(()) => Ok(()),
        Err(_) => Err(AllocError),
    }
}
