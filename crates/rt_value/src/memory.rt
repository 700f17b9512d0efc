ghost use Rattle.std.specs.Prelude.{◌≡◌, true};
ghost use Rattle.std.specs.List.{list_all};
ghost use Rattle.rt_value.specs.Rows.{is_rising};

use crate::rising::{all_rise, first_behind, first_onward};
use crate::{Db, Key, LentValue, List, Row};

/// Tables in memory: the rows of each, in the order of their keys.
#[derive(Debug, Drop)]
pub struct SortedTables {
    pub tables: List<List<Row>>,
    ghost rising: { list_all is_rising tables ≡ true },
}

impl SortedTables {
    ghost use Rattle.std.specs.Prelude.{◌≡◌, ◌↔◌, true, IsSome, IfSome};
    ghost use Rattle.std.specs.List.{list_all};
    ghost use Rattle.rt_value.specs.Rows.{is_rising};

    /// `None` where the keys of some table don't rise strictly.
    pub fn new(tables: List<List<Row>>) -> Option<SortedTables>
        ensures when { IsSome result ↔ (list_all is_rising tables ≡ true) }
        ensures value { IfSome result (λ t. t.tables ≡ tables) }
    {
        if all_rise(tables.get()) {
            Some(SortedTables { tables })
        } else {
            None
        }
    }
}

impl Db for SortedTables {
    ghost use Rattle.rt_value.specs.Tables.{rows_of_table, rising_of_table};

    ghost rows = { λ t n. rows_of_table t.tables n };

    ghost rising = { λ t n. rising_of_table t.tables n t.rising };

    fn first(&self, table: u32) -> Option<&Row> {
        match self.tables.get().get(table as usize) {
            None => None,
            Some(rows) => rows.get().first(),
        }
    }

    fn after(&self, table: u32, key: &Key) -> Option<&Row> {
        match self.tables.get().get(table as usize) {
            None => None,
            Some(rows) => first_behind(rows.get(), key),
        }
    }

    fn first_from(&self, table: u32, values: &[LentValue<'_>]) -> Option<&Row> {
        match self.tables.get().get(table as usize) {
            None => None,
            Some(rows) => first_onward(rows.get(), values),
        }
    }
}
