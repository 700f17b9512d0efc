ghost use Rattle.std.specs.Prelude.{◌≡◌};
ghost use Rattle.rt_value.specs.Order.{compared, variant_of};

use crate::{Key, Value};
use std::cmp::Ordering;

/// The order of two values: whole numbers, uuids and moments by value, texts by bytes, false
/// before true.
/// `None` where one is null or opaque, or the two are not of one variant.
pub fn compare(a: &Value, b: &Value) -> Option<Ordering>
    ensures { result ≡ compared a.now b.now }
{
    match (a, b) {
        (Value::Int(x), Value::Int(y)) => Some(x.cmp(y)),
        (Value::Text(x), Value::Text(y)) => Some(x.cmp(y)),
        (Value::Bool(x), Value::Bool(y)) => Some(x.cmp(y)),
        (Value::Uuid(x), Value::Uuid(y)) => Some(x.cmp(y)),
        (Value::Moment(x), Value::Moment(y)) => Some(x.cmp(y)),
        _ => None,
    }
}

impl Value {
    fn variant(&self) -> u8
        ensures { result ≡ variant_of self.now }
    {
        match self {
            Value::Null => 0,
            Value::Int(_) => 1,
            Value::Text(_) => 2,
            Value::Bool(_) => 3,
            Value::Uuid(_) => 4,
            Value::Moment(_) => 5,
            Value::Opaque => 6,
        }
    }
}

impl PartialEq for Value {
    ghost use Rattle.std.specs.Ordering.{eq_by_cmp};
    ghost use Rattle.std.specs.Cmp.{partial_equiv_from_equiv, eq_by_cmp_equiv};
    ghost use Rattle.rt_value.specs.Order.{value_cmp};
    ghost use Rattle.rt_value.specs.TotalOrder.{value_total};

    ghost eq = { eq_by_cmp value_cmp };

    ghost laws = { partial_equiv_from_equiv (eq_by_cmp_equiv value_total) };

    fn eq(&self, other: &Value) -> bool {
        self.cmp(other).is_eq()
    }
}

impl Eq for Value {
    ghost use Rattle.std.specs.Cmp.{eq_by_cmp_equiv};
    ghost use Rattle.rt_value.specs.TotalOrder.{value_total};

    ghost laws = { eq_by_cmp_equiv value_total };
}

impl PartialOrd for Value {
    ghost use Rattle.std.specs.Ordering.{as_partial_cmp};
    ghost use Rattle.std.specs.Cmp.{partial_order_from_total};
    ghost use Rattle.rt_value.specs.Order.{value_cmp};
    ghost use Rattle.rt_value.specs.TotalOrder.{value_total};

    ghost partial_cmp = { as_partial_cmp value_cmp };

    ghost laws = { partial_order_from_total value_total };

    fn partial_cmp(&self, other: &Value) -> Option<Ordering> {
        Some(self.cmp(other))
    }
}

/// A total order for the values of keys: by the variant, in which null stands first, and then by
/// the value. What a policy or filter says of two values is `compare`.
impl Ord for Value {
    ghost use Rattle.std.specs.Prelude.{refl};
    ghost use Rattle.rt_value.specs.Order.{value_cmp};
    ghost use Rattle.rt_value.specs.TotalOrder.{value_total};

    ghost cmp = { value_cmp };

    ghost total = { value_total };

    ghost matches_partial_cmp = { λ x y. refl };

    ghost matches_eq = { λ x y. refl };

    fn cmp(&self, other: &Value) -> Ordering {
        match (self, other) {
            (Value::Int(x), Value::Int(y)) => x.cmp(y),
            (Value::Text(x), Value::Text(y)) => x.cmp(y),
            (Value::Bool(x), Value::Bool(y)) => x.cmp(y),
            (Value::Uuid(x), Value::Uuid(y)) => x.cmp(y),
            (Value::Moment(x), Value::Moment(y)) => x.cmp(y),
            _ => self.variant().cmp(&other.variant()),
        }
    }
}

impl PartialEq for Key {
    ghost use Rattle.std.specs.Cmp.{partial_equiv_from_equiv, eq_by_cmp_equiv};
    ghost use Rattle.rt_value.specs.Order.{same_key};
    ghost use Rattle.rt_value.specs.TotalOrder.{key_total};

    ghost eq = { same_key };

    ghost laws = { partial_equiv_from_equiv (eq_by_cmp_equiv key_total) };

    fn eq(&self, other: &Key) -> bool {
        self.cmp(other).is_eq()
    }
}

impl Eq for Key {
    ghost use Rattle.std.specs.Cmp.{eq_by_cmp_equiv};
    ghost use Rattle.rt_value.specs.TotalOrder.{key_total};

    ghost laws = { eq_by_cmp_equiv key_total };
}

impl PartialOrd for Key {
    ghost use Rattle.std.specs.Ordering.{as_partial_cmp};
    ghost use Rattle.std.specs.Cmp.{partial_order_from_total};
    ghost use Rattle.rt_value.specs.Order.{key_cmp};
    ghost use Rattle.rt_value.specs.TotalOrder.{key_total};

    ghost partial_cmp = { as_partial_cmp key_cmp };

    ghost laws = { partial_order_from_total key_total };

    fn partial_cmp(&self, other: &Key) -> Option<Ordering> {
        Some(self.cmp(other))
    }
}

/// Value by value; where one key begins the other, the shorter is less.
impl Ord for Key {
    ghost use Rattle.std.specs.Prelude.{refl};
    ghost use Rattle.rt_value.specs.Order.{key_cmp};
    ghost use Rattle.rt_value.specs.TotalOrder.{key_total};

    ghost cmp = { key_cmp };

    ghost total = { key_total };

    ghost matches_partial_cmp = { λ x y. refl };

    ghost matches_eq = { λ x y. refl };

    fn cmp(&self, other: &Key) -> Ordering {
        self.values.get().cmp(other.values.get())
    }
}
