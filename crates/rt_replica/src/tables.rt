ghost use Rattle.std.specs.Prelude.{◌≡◌, [], IfOk, OnOk, OnErr, replicate, true};
ghost use Rattle.std.specs.List.{list_all};
ghost use Rattle.std.specs.Option.{option_copied};
ghost use Rattle.rt_value.specs.Edits.{edited_rows};
ghost use Rattle.rt_value.specs.Rows.{is_rising, row_at};
ghost use Rattle.rt_value.specs.Tables.{rows_of_table};
ghost use Rattle.rt_replica.specs.Changed.{changed_at, count_rows};

use crate::table::Table;
use rt_value::{Db, Edit, Key, LentValue, Row};
use std::alloc::{AllocError, Global};
use std::marker::Model;

/// The rows of each table, by the table's number, in the order of their keys.
#[derive(Drop)]
pub struct Tables {
    tables: Vec<Table>,
    count: usize,
    alloc: Global,
}

impl Model for Tables {
    ghost use Rattle.std.specs.Prelude as p;
    ghost use Rattle.rt_value.specs.declared.row.Row.{Row};
    ghost use Rattle.rt_replica.specs.Changed.{IsCounted};

    ghost Value = { p.List (p.List Row) };

    ghost view = { λ t. t.tables.items };

    ghost invariant = { λ t. IsCounted t.tables.items t.count };
}

// So many tables with no row.
#[tactic(auto, using(crate::proofs::Changed::one_more_empty))]
fn empty(alloc: Global, tables: usize) -> Result<Vec<Table>, AllocError>
    ensures { IfOk result (λ v. v.items ≡ replicate tables []) }
{
    let mut empty = Vec::with_capacity(alloc, tables)?;
    for _ in 0..tables {
        empty.push(Table::new(alloc))?;
    }
    Ok(empty)
}

// Equal tables, which share all rows.
fn copies(alloc: Global, tables: &[Table]) -> Result<Vec<Table>, AllocError>
    ensures { IfOk result (λ v. v.items ≡ tables.now) }
{
    let mut copies = Vec::with_capacity(alloc, tables.len())?;
    for table in tables {
        copies.push(table.snapshot()?)?;
    }
    Ok(copies)
}

impl Tables {
    /// So many tables, none of which has a row.
    ///
    /// Errors: memory ran out.
    pub fn new(alloc: Global, tables: usize) -> Result<Self, AllocError>
        ensures { IfOk result (λ t. t ≡ replicate tables []) }
    {
        Ok(Tables {
            tables: empty(alloc, tables)?,
            count: 0,
            alloc,
        })
    }

    /// Makes the edit in the table of this number; where there is none, nothing is to be done.
    ///
    /// Errors: memory ran out. The tables are then as they were.
    pub fn apply(&mut self, table: u32, edit: &Edit) -> Result<(), AllocError>
        ensures ok { OnOk result (self.new ≡ changed_at table (edited_rows edit.now) self.old) }
        ensures err { OnErr result (self.new ≡ self.old) }
    {
        // So many rows, which no memory holds, are all that can be counted.
        if self.count == usize::MAX {
            return Err(AllocError);
        }
        match self.tables.get_mut(table as usize) {
            None => {}
            Some(rows) => {
                let others = self.count - rows.len();
                rows.apply(self.alloc, edit)?;
                self.count = others + rows.len();
            }
        }
        Ok(())
    }

    /// Equal tables, which share all rows. A change of either leaves the other as it is.
    ///
    /// Errors: memory ran out.
    pub fn snapshot(&self) -> Result<Self, AllocError>
        ensures { IfOk result (λ t. t ≡ self.now) }
    {
        Ok(Tables {
            tables: copies(self.alloc, &self.tables)?,
            count: self.count,
            alloc: self.alloc,
        })
    }

    /// The row with the key in the table of this number.
    pub fn get(&self, table: u32, key: &Key) -> Option<&Row>
        ensures { option_copied result ≡ row_at key.now (rows_of_table self.now table) }
    {
        self.tables.get(table as usize)?.get(key)
    }

    /// How many rows there are in all tables.
    pub fn rows(&self) -> usize
        ensures count { result ≡ count_rows self.now }
        ensures rising { list_all is_rising self.now ≡ true }
    {
        self.count
    }
}

impl Db for Tables {
    ghost use Rattle.rt_replica.specs.Changed.{rows_seen, rising_seen};

    ghost rows = { rows_seen };

    ghost rising = { rising_seen };

    fn first(&self, table: u32) -> Option<&Row> {
        match self.tables.get(table as usize) {
            None => None,
            Some(rows) => rows.first(),
        }
    }

    fn after(&self, table: u32, key: &Key) -> Option<&Row> {
        match self.tables.get(table as usize) {
            None => None,
            Some(rows) => rows.after(key),
        }
    }

    fn first_from(&self, table: u32, values: &[LentValue<'_>]) -> Option<&Row> {
        match self.tables.get(table as usize) {
            None => None,
            Some(rows) => rows.first_from(values),
        }
    }
}
