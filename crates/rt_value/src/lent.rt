ghost use Rattle.std.specs.Prelude.{◌≡◌, map};
ghost use Rattle.std.specs.Cmp.Lexicographic.{slice_cmp};
ghost use Rattle.rt_value.specs.Lent.{value_of, key_of};
ghost use Rattle.rt_value.specs.Order.{key_cmp, value_cmp, variant_of};
ghost use Rattle.rt_value.specs.Prefix.{begins_with};

use crate::{Key, Value};
use std::cmp::Ordering;

/// A value whose text is on loan.
#[derive(Clone, Copy)]
pub enum LentValue<'a> {
    Null,
    Int(i64),
    Text(&'a str),
    Bool(bool),
    Uuid(u128),
    Moment(i64),
    Opaque,
}

/// A value with its text on loan.
pub fn lend(value: &Value) -> LentValue<'_>
    ensures { value_of result ≡ value.now }
{
    match value {
        Value::Null => LentValue::Null,
        Value::Int(n) => LentValue::Int(*n),
        Value::Text(text) => LentValue::Text(text.get()),
        Value::Bool(b) => LentValue::Bool(*b),
        Value::Uuid(n) => LentValue::Uuid(*n),
        Value::Moment(n) => LentValue::Moment(*n),
        Value::Opaque => LentValue::Opaque,
    }
}

fn variant(value: LentValue<'_>) -> u8
    ensures { result ≡ variant_of (value_of value.entry) }
{
    match value {
        LentValue::Null => 0,
        LentValue::Int(_) => 1,
        LentValue::Text(_) => 2,
        LentValue::Bool(_) => 3,
        LentValue::Uuid(_) => 4,
        LentValue::Moment(_) => 5,
        LentValue::Opaque => 6,
    }
}

// The order of values in keys, of one on loan and a second one.
fn order(a: LentValue<'_>, b: LentValue<'_>) -> Ordering
    ensures { result ≡ value_cmp (value_of a.entry) (value_of b.entry) }
{
    match (a, b) {
        (LentValue::Int(x), LentValue::Int(y)) => x.cmp(&y),
        (LentValue::Text(x), LentValue::Text(y)) => x.cmp(y),
        (LentValue::Bool(x), LentValue::Bool(y)) => x.cmp(&y),
        (LentValue::Uuid(x), LentValue::Uuid(y)) => x.cmp(&y),
        (LentValue::Moment(x), LentValue::Moment(y)) => x.cmp(&y),
        _ => variant(a).cmp(&variant(b)),
    }
}

fn order_all(lent: &[LentValue<'_>], values: &[Value]) -> Ordering
    ensures { result ≡ slice_cmp value_cmp (map value_of lent.now) values.now }
{
    match (lent.split_first(), values.split_first()) {
        (None, None) => Ordering::Equal,
        (None, Some(_)) => Ordering::Less,
        (Some(_), None) => Ordering::Greater,
        (Some((first, others)), Some((value, values))) => match order(*first, lend(value)) {
            Ordering::Equal => order_all(others, values),
            decided => decided,
        },
    }
}

/// The order of the key that has these values and another key.
pub fn order_key(values: &[LentValue<'_>], key: &Key) -> Ordering
    ensures { result ≡ key_cmp (key_of values.now) key.now }
{
    order_all(values, key.values.get())
}

fn begin_all(lent: &[LentValue<'_>], values: &[Value]) -> bool
    ensures { result ≡ begins_with (map value_of lent.now) values.now }
{
    match (lent.split_first(), values.split_first()) {
        (None, _) => true,
        (Some(_), None) => false,
        (Some((first, others)), Some((value, values))) => {
            order(*first, lend(value)).is_eq() && begin_all(others, values)
        }
    }
}

/// Whether the values are the first ones of the key, in the order of its columns.
pub fn begin_key(values: &[LentValue<'_>], key: &Key) -> bool
    ensures { result ≡ begins_with (map value_of values.now) key.now.values }
{
    begin_all(values, key.values.get())
}
