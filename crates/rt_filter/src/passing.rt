ghost use Rattle.std.specs.Prelude.{◌≡◌};
ghost use Rattle.rt_value.specs.Choice.{is_at};
ghost use Rattle.rt_value.specs.Order.{compared};
ghost use Rattle.rt_filter.specs.Tests.{all_pass, passes, passes_cell, stands};

use crate::{Op, Test};
use rt_value::{Cells, Value, compare};
use std::cmp::Ordering;

/// Whether the cell of the test's column is there, isn't null, and stands to the values as the
/// operator says in the order of `rt_value::compare`.
pub fn passes(test: &Test, cells: &Cells) -> bool
    ensures { result ≡ passes test.now cells.now }
{
    match cells.get().get(test.column as usize) {
        Some(Some(cell)) => passes_cell(test, cell),
        _ => false,
    }
}

/// Whether every test passes. Without tests it is so.
pub fn all_pass(tests: &[Test], cells: &Cells) -> bool
    ensures { result ≡ all_pass tests.now cells.now }
{
    tests.iter().all(|test| passes(test, cells))
}

fn passes_cell(test: &Test, cell: &Value) -> bool
    ensures { result ≡ passes_cell test.now cell.now }
{
    let values = test.values.get();
    values.iter().any(|value| stands(test.op, cell, value))
}

fn stands(op: Op, cell: &Value, value: &Value) -> bool
    ensures { result ≡ is_at (stands op) (compared cell.now value.now) }
{
    match compare(cell, value) {
        Some(order) => op.asks_for(order),
        None => false,
    }
}

impl Op {
    /// Whether the operator asks for this order of a cell and a value.
    fn asks_for(self, order: Ordering) -> bool
        ensures { result ≡ stands self order }
    {
        match self {
            Op::Eq | Op::OneOf => order.is_eq(),
            Op::Neq => order.is_ne(),
            Op::Lt => order.is_lt(),
            Op::Lte => order.is_le(),
            Op::Gt => order.is_gt(),
            Op::Gte => order.is_ge(),
        }
    }
}
