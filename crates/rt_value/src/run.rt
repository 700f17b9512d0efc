ghost use Rattle.std.specs.Prelude.{◌≡◌, map};
ghost use Rattle.rt_value.specs.Lent.{value_of};
ghost use Rattle.rt_value.specs.Prefix.{rows_beginning};

use crate::lent::{LentValue, begin_key};
use crate::{Db, Row};
use std::marker::Model;

/// An iterator over the rows of a table whose keys begin with given values, in the order of the
/// keys. Contracts see the rows that are left.
#[derive(Drop)]
pub struct Run<'a, D: Db> {
    db: &'a D,
    table: u32,
    values: &'a [LentValue<'a>],
    at: Option<&'a Row>,
}

impl<'a, D: Db> Model for Run<'a, D> {
    ghost use Rattle.std.specs.Prelude.{◌≡◌, List, map, true};
    ghost use Rattle.std.specs.Option.{option_copied};
    ghost use Rattle.rt_value.specs.Lent.{key_of, value_of};
    ghost use Rattle.rt_value.specs.Prefix.{rows_beginning, stands_from};
    ghost use Rattle.rt_value.specs.Rows.{rows_from};
    ghost use Rattle.rt_value.specs.declared.row.Row.{Row};

    ghost Value = { List Row };

    ghost view = { λ r. rows_beginning (map value_of r.values.now)
        (rows_from (option_copied r.at) (D.rows r.db.now r.table)) };

    ghost invariant = { λ r. stands_from (key_of r.values.now) (option_copied r.at) ≡ true };
}

/// The rows of a table whose keys begin with the values, in the order of the keys: a search for
/// the first of them, and a step for each. Takes no memory.
pub fn rows_with<'a, D: Db>(db: &'a D, table: u32, values: &'a [LentValue<'a>]) -> Run<'a, D>
    ensures { result ≡ rows_beginning (map value_of values.now) (D.rows db.now table) }
{
    Run {
        db,
        table,
        values,
        at: db.first_from(table, values),
    }
}

impl<'a, D: Db> Iterator for Run<'a, D> {
    type Item = &'a Row;

    ghost use Rattle.std.specs.Iterator.{YieldsFirstRef, item_count};

    ghost next_gives = { YieldsFirstRef (λ r. r) };

    ghost remaining = { item_count (λ r. r) };

    fn next(&mut self) -> Option<&'a Row> {
        let row = self.at?;
        if !begin_key(self.values, &row.key) {
            return None;
        }
        self.at = self.db.after(self.table, &row.key);
        Some(row)
    }
}
