ghost use Rattle.std.specs.Prelude.{◌≡◌};
ghost use Rattle.std.specs.Option.{option_copied};
ghost use Rattle.rt_value.specs.Order.{compared as order_of};
ghost use Rattle.rt_value.specs.Lent.{value_of};
ghost use Rattle.rt_policy.specs.Truth.{cell_at, cell_of};

use rt_value::{LentValue, Row, lend};
use std::cmp::Ordering;

/// The order of two values on loan, which is that of the values.
pub fn order(a: LentValue<'_>, b: LentValue<'_>) -> Option<Ordering>
    ensures { result ≡ order_of (value_of a.entry) (value_of b.entry) }
{
    match (a, b) {
        (LentValue::Int(x), LentValue::Int(y)) => Some(x.cmp(&y)),
        (LentValue::Text(x), LentValue::Text(y)) => Some(x.cmp(y)),
        (LentValue::Bool(x), LentValue::Bool(y)) => Some(x.cmp(&y)),
        (LentValue::Uuid(x), LentValue::Uuid(y)) => Some(x.cmp(&y)),
        (LentValue::Moment(x), LentValue::Moment(y)) => Some(x.cmp(&y)),
        _ => None,
    }
}

/// The value of a row's column, null where the row hasn't so many.
pub fn cell(row: &Row, column: u32) -> LentValue<'_>
    ensures { value_of result ≡ cell_at row.now column }
{
    match row.values.get().get(column as usize) {
        None => LentValue::Null,
        Some(value) => lend(value),
    }
}

/// The same of a row that may be missing, null without one.
pub fn cell_in(row: Option<&Row>, column: u32) -> LentValue<'_>
    ensures { value_of result ≡ cell_of (option_copied row.entry) column }
{
    match row {
        None => LentValue::Null,
        Some(row) => cell(row, column),
    }
}
