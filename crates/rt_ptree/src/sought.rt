ghost use Rattle.std.specs.Prelude.{◌≡◌};

use std::cmp::Ordering;

/// What is looked for in a map with keys `K`: a key, or what stands for one and compares as it does, such as
/// values of a key that are on loan.
pub trait Sought<K: Ord> {
    // The key for which it stands.
    ghost stands_for: { Self → K };

    /// The order of the key for which it stands and a key of the map.
    fn order(&self, other: &K) -> Ordering
        ensures { result ≡ K.cmp (stands_for self.now) other.now };
}

impl<K: Ord> Sought<K> for K {
    ghost stands_for = { λ key. key };

    fn order(&self, other: &K) -> Ordering {
        self.cmp(other)
    }
}
