ghost use Rattle.std.specs.Prelude.{◌≡◌, slice_get};
ghost use Rattle.std.specs.List.{list_all};
ghost use Rattle.std.specs.Option.{option_copied};
ghost use Rattle.rt_value.specs.Lent.{key_of};
ghost use Rattle.rt_value.specs.Prefix.{rows_onward};
ghost use Rattle.rt_value.specs.Rows.{rows_behind, is_after, is_rising};

use crate::lent::{LentValue, order_key};
use crate::{Key, List, Row};

/// The first row with a greater key.
pub fn first_behind<'a>(rows: &'a [Row], key: &Key) -> Option<&'a Row>
    ensures { option_copied result ≡ slice_get (rows_behind key.now rows.now) 0 }
{
    for row in rows {
        if *key < row.key {
            return Some(row);
        }
    }
    None
}

/// The first row whose key isn't less than the values.
pub fn first_onward<'a>(rows: &'a [Row], values: &[LentValue<'_>]) -> Option<&'a Row>
    ensures { option_copied result ≡ slice_get (rows_onward (key_of values.now) rows.now) 0 }
{
    for row in rows {
        if order_key(values, &row.key).is_le() {
            return Some(row);
        }
    }
    None
}

fn comes_first(key: &Key, rows: &[Row]) -> bool
    ensures { result ≡ list_all (is_after key.now) rows.now }
{
    rows.iter().all(|row| *key < row.key)
}

fn rises(rows: &[Row]) -> bool
    ensures { result ≡ is_rising rows.now }
{
    match rows.split_first() {
        None => true,
        Some((first, others)) => comes_first(&first.key, others) && rises(others),
    }
}

/// Whether the keys of each table rise strictly.
pub fn all_rise(tables: &[List<Row>]) -> bool
    ensures { result ≡ list_all is_rising tables.now }
{
    tables.iter().all(|rows| rises(rows.get()))
}
