ghost use Rattle.std.specs.Prelude.{◌≡◌, ◌≤◌, ℕ, List, All, IfOk, OnErr, Some, is_some, slice_get, option_copied, flat_map};
ghost use Rattle.std.specs.Arc.{arc_value};
ghost use Rattle.rt_ptree.specs.Entries.{IsRising, value_at, least_key, entry_after, entry_lent};
ghost use Rattle.rt_ptree.specs.Change.{change_key, changed};
ghost use Rattle.rt_ptree.specs.Pieces.{pieces_list};

use crate::change::Change;
use std::alloc::{AllocError, Global};
use std::sync::Arc;

/// What stands in the place of a part after a change: nothing where it became empty, the part itself, or
/// the part and a second one behind it.
#[derive(Drop)]
pub enum Pieces<P> {
    None,
    One,
    Two(P),
}

/// What a change made of a part, and whether an entry stood at its key.
#[derive(Drop)]
pub struct Made<P> {
    pub pieces: Pieces<P>,
    pub was_there: bool,
}

/// What a list of the tree holds: an entry, or a shared list of parts.
pub trait Part<K: Ord, V>: Drop {
    // The entries of a part, in the order of their keys.
    ghost entries: { Self → List (K × V) };

    // No list of the part is empty or above its bound.
    ghost is_fit: { Self → Type 0 };

    // How many such parts a node holds at most.
    const MOST: usize;

    ghost MOST: { ℕ };

    ghost halves: { 2 ≤ MOST };

    // The part with one owner more.
    fn share(&self) -> Result<Self, AllocError>
        requires { is_fit self.now }
        ensures same { IfOk result (λ p. entries p ≡ entries self.now) }
        ensures fit { IfOk result is_fit };

    fn first(&self) -> (&K, &V)
        requires { is_fit self.now }
        ensures { slice_get (entries self.now) 0 ≡ Some (result.0.now, result.1.now) };

    fn least(&self) -> &Arc<K>
        requires { is_fit self.now }
        ensures { least_key (entries self.now) ≡ Some (arc_value result.now) };

    fn get(&self, key: &K) -> Option<&V>
        requires fit { is_fit self.now }
        requires rising { IsRising K.cmp (entries self.now) }
        ensures { option_copied result ≡ value_at K.cmp (entries self.now) key.now };

    // The first entry whose key is above `key`.
    fn after(&self, key: &K) -> Option<(&K, &V)>
        requires fit { is_fit self.now }
        requires rising { IsRising K.cmp (entries self.now) }
        ensures { entry_lent result ≡ entry_after K.cmp (entries self.now) key.now };

    // Makes the change, in place where no list has another owner. Answers what stands for the part then.
    fn change(&mut self, alloc: Global, change: &Change<'_, K, V>) -> Result<Made<Self>, AllocError>
        requires fit { is_fit self.old }
        requires rising { IsRising K.cmp (entries self.old) }
        ensures entries { IfOk result (λ m. flat_map entries (pieces_list self.new m.pieces)
            ≡ changed K.cmp change.now (entries self.old)) }
        ensures was_there { IfOk result (λ m. m.was_there
            ≡ is_some (value_at K.cmp (entries self.old) (change_key change.now))) }
        ensures fits { IfOk result (λ m. All is_fit (pieces_list self.new m.pieces)) }
        ensures err { OnErr result (entries self.new ≡ entries self.old) }
        ensures err_fit { OnErr result (is_fit self.new) };
}
