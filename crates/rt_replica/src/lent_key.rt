ghost use Rattle.std.specs.Prelude.{◌≡◌};

use rt_ptree::Sought;
use rt_value::{Key, LentValue, order_key};
use std::cmp::Ordering;

/// The key that has these values, or the first of them where keys are longer.
#[derive(Drop)]
pub struct LentKey<'a> {
    pub values: &'a [LentValue<'a>],
}

impl<'a> Sought<Key> for LentKey<'a> {
    ghost use Rattle.rt_value.specs.Lent.{key_of};

    ghost stands_for = { λ k. key_of k.values.now };

    fn order(&self, other: &Key) -> Ordering {
        order_key(self.values, other)
    }
}
