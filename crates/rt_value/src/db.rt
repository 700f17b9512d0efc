ghost use Rattle.std.specs.Prelude.{◌≡◌, true, ℕ, List, slice_get};
ghost use Rattle.std.specs.Option.{option_copied};
ghost use Rattle.rt_value.specs.Lent.{key_of};
ghost use Rattle.rt_value.specs.Prefix.{rows_onward};
ghost use Rattle.rt_value.specs.Rows.{rows_behind, is_rising};
ghost use Rattle.rt_value.specs.declared.row.Row.{Row};

use crate::{Key, LentValue, Row};
use std::marker::Model;

/// Tables of rows, each of which is walked in the order of the keys.
pub trait Db {
    /// The rows of each table, by its number.
    ghost rows: { Self → ℕ → List Row };

    /// The row with the least key; `None` where the table has no row.
    fn first(&self, table: u32) -> Option<&Row>
        ensures { option_copied result ≡ slice_get (rows self.now table) 0 };

    /// The row with the least key that is greater than `key`; `None` where there is none.
    fn after(&self, table: u32, key: &Key) -> Option<&Row>
        ensures { option_copied result ≡ slice_get (rows_behind key.now (rows self.now table)) 0 };

    /// The row with the least key that isn't less than the values: a key, or the first values of keys.
    /// `None` where there is none.
    fn first_from(&self, table: u32, values: &[LentValue<'_>]) -> Option<&Row>
        ensures { option_copied result ≡ slice_get (rows_onward (key_of values.now) (rows self.now table)) 0 };

    // The keys of a table rise strictly.
    ghost rising: { (db : Self) (table : ℕ) → is_rising (rows db table) ≡ true };
}

/// An iterator over the rows of a table in the order of the keys. Contracts see the rows that are
/// left.
#[derive(Drop)]
pub struct Walk<'a, D: Db> {
    db: &'a D,
    table: u32,
    at: Option<&'a Row>,
}

impl<'a, D: Db> Model for Walk<'a, D> {
    ghost use Rattle.std.specs.Prelude.{List};
    ghost use Rattle.std.specs.Option.{option_copied};
    ghost use Rattle.rt_value.specs.Rows.{rows_from};
    ghost use Rattle.rt_value.specs.declared.row.Row.{Row};

    ghost Value = { List Row };

    ghost view = { λ w. rows_from (option_copied w.at) (D.rows w.db.now w.table) };
}

/// The rows of a table in the order of the keys.
pub fn rows_in<D: Db>(db: &D, table: u32) -> Walk<'_, D>
    ensures { result ≡ D.rows db.now table }
{
    Walk {
        db,
        table,
        at: db.first(table),
    }
}

impl<'a, D: Db> Iterator for Walk<'a, D> {
    type Item = &'a Row;

    ghost use Rattle.std.specs.Iterator.{YieldsFirstRef, item_count};

    ghost next_gives = { YieldsFirstRef (λ w. w) };

    ghost remaining = { item_count (λ w. w) };

    fn next(&mut self) -> Option<&'a Row> {
        let row = self.at?;
        self.at = self.db.after(self.table, &row.key);
        Some(row)
    }
}
