ghost use Rattle.std.specs.Prelude.{◌≡◌, ◌<◌, [], ◌∷◌, All, IfOk, IfErr, OnOk, OnErr, Ok, Some, None, false, true, IsTrue, ◌↔◌, is_some, length, vec_len, slice_get, option_copied, flat_map, if◌then◌else◌};
ghost use Rattle.std.specs.Arc.{arc_value};
ghost use Rattle.std.specs.BTreeMap.{insert_entry};
ghost use Rattle.rt_ptree.specs.Change.{change_key, changed};
ghost use Rattle.rt_ptree.specs.Entries.{IsRising, Updates, value_at, entry_after, without_key, entry_lent};
ghost use Rattle.rt_ptree.specs.Orderly.{IsOrderly};
ghost use Rattle.rt_ptree.specs.Parts.{limb_list, tree_list, IsFitLimb, IsFitTree};

mod walk;

use crate::change::Change;
use crate::entry::Entry;
use crate::node::{Node, node_of};
use crate::parts::{after_in, change_in, copied, first_in, get_in};
use std::alloc::{AllocError, Global};
use std::marker::Model;
use std::sync::Arc;
pub use walk::Entries;

type Leaf<K, V> = Arc<Node<K, Entry<K, V>>>;

type Branch<K, V> = Arc<Node<K, Leaf<K, V>>>;

type Limb<K, V> = Arc<Node<K, Branch<K, V>>>;

/// An ordered map whose snapshots share.
///
/// Contracts see the list of its entries, whose keys strictly rise. At an equal key the key that is there
/// stays, as in std's `BTreeMap`.
#[derive(Debug, Drop)]
pub struct Tree<K: Ord, V> {
    limbs: Option<Arc<Vec<Limb<K, V>>>>,
    count: usize,
    alloc: Global,
}

impl<K: Ord, V> Model for Tree<K, V> {
    ghost use Rattle.std.specs.Prelude.{List};
    ghost use Rattle.std.specs.Coded.{coded_list, coded×};

    ghost Value = { List (K × V) };

    ghost coded = { coded_list (coded× K.code V.code) };

    ghost use Rattle.rt_ptree.specs.Parts.{tree_list, IsWellFormed};

    ghost view = { λ t. tree_list t.limbs };

    ghost invariant = { λ t. IsWellFormed K.cmp t.limbs t.count };
}

impl<K: Ord, V> Tree<K, V> {
    /// The empty map, which takes no memory.
    pub fn new(alloc: Global) -> Self
        ensures { result ≡ [] }
    {
        Tree {
            limbs: None,
            count: 0,
            alloc,
        }
    }

    /// How many entries there are.
    pub fn len(&self) -> usize
        ensures len { result ≡ length self.now }
        ensures rising { IsRising K.cmp self.now }
    {
        self.count
    }

    pub fn is_empty(&self) -> bool
        ensures { IsTrue result ↔ (self.now ≡ []) }
    {
        self.len() == 0
    }

    /// An equal map, which shares every list, key and value. A change of either leaves the other as it is.
    ///
    /// Errors: memory ran out.
    pub fn snapshot(&self) -> Result<Self, AllocError>
        ensures { IfOk result (λ t. t ≡ self.now) }
    {
        let limbs = match &self.limbs {
            Some(limbs) => Some(Arc::try_clone(limbs)?),
            None => None,
        };
        Ok(Tree {
            limbs,
            count: self.len(),
            alloc: self.alloc,
        })
    }
}

impl<K: Ord + Drop, V: Drop> Tree<K, V> {
    /// The value at the key.
    pub fn get(&self, key: &K) -> Option<&V>
        ensures { option_copied result ≡ value_at K.cmp self.now key.now }
    {
        match &self.limbs {
            Some(limbs) => get_in(limbs, key),
            None => None,
        }
    }

    /// The entry with the least key.
    pub fn first(&self) -> Option<(&K, &V)>
        ensures { entry_lent result ≡ slice_get self.now 0 }
    {
        match &self.limbs {
            Some(limbs) => Some(first_in(limbs)),
            None => None,
        }
    }

    /// The entry with the least key above `key`, which need not be there itself.
    pub fn after(&self, key: &K) -> Option<(&K, &V)>
        ensures { entry_lent result ≡ entry_after K.cmp self.now key.now }
    {
        match &self.limbs {
            Some(limbs) => after_in(limbs, key),
            None => None,
        }
    }

    /// Puts the entry in, or the value in the place of the one at the key.
    ///
    /// Errors: memory ran out. The pair comes back, and the map is as it was.
    pub fn insert(&mut self, key: Arc<K>, value: Arc<V>) -> Result<(), (Arc<K>, Arc<V>)>
        ensures ok { OnOk result (self.new ≡ insert_entry K.cmp self.old (arc_value key) (arc_value value)) }
        ensures updates { OnOk result (Updates K.cmp self.old self.new (arc_value key) (Some (arc_value value))) }
        ensures returned { IfErr result (λ pair. pair ≡ (key, value)) }
        ensures err { OnErr result (self.new ≡ self.old) }
    {
        let entry = Entry { key, value };
        match self.put(&entry) {
            Ok(()) => Ok(()),
            Err(_) => Err((entry.key, entry.value)),
        }
    }

    /// Takes the entry at the key out, and answers whether there was one.
    ///
    /// Errors: memory ran out, which it cannot where there is no entry. The map is then as it was.
    pub fn remove(&mut self, key: &K) -> Result<bool, AllocError>
        ensures found { IfOk result (λ found. found ≡ is_some (value_at K.cmp self.old key.now)) }
        ensures ok { OnOk result (self.new ≡ without_key K.cmp self.old key.now) }
        ensures updates { OnOk result (Updates K.cmp self.old self.new key.now None) }
        ensures absent { is_some (value_at K.cmp self.old key.now) ≡ false → result ≡ Ok false }
        ensures err { OnErr result (self.new ≡ self.old) }
    {
        match self.take(key) {
            Ok(was_there) => Ok(was_there),
            // Where there is no entry, no memory is wanted.
            Err(error) => match self.get(key) {
                Some(_) => Err(error),
                None => Ok(false),
            },
        }
    }

    fn put(&mut self, entry: &Entry<K, V>) -> Result<(), AllocError>
        ensures ok { OnOk result (self.new
            ≡ insert_entry K.cmp self.old (arc_value entry.now.key) (arc_value entry.now.value)) }
        ensures err { OnErr result (self.new ≡ self.old) }
    {
        // So many entries, which no memory holds, are all that can be counted.
        if self.count == usize::MAX {
            return Err(AllocError);
        }
        let was_there = change_all(self.alloc, &mut self.limbs, &Change::Put(entry))?;
        self.count = count_after(was_there, self.count, self.count + 1);
        Ok(())
    }

    fn take(&mut self, key: &K) -> Result<bool, AllocError>
        ensures was_there { IfOk result (λ b. b ≡ is_some (value_at K.cmp self.old key.now)) }
        ensures ok { OnOk result (self.new ≡ without_key K.cmp self.old key.now) }
        ensures updates { OnOk result (Updates K.cmp self.old self.new key.now None) }
        ensures err { OnErr result (self.new ≡ self.old) }
    {
        let was_there = change_all(self.alloc, &mut self.limbs, &Change::Take(key))?;
        self.count = count_after(was_there, self.count.saturating_sub(1), self.count);
        Ok(was_there)
    }
}

// How many entries there are after a change, where one stood at its key and where none did.
fn count_after(was_there: bool, with: usize, without: usize) -> usize
    ensures { result ≡ (if was_there then with else without) }
{
    if was_there { with } else { without }
}

// Makes the change in the list of limbs, in place where it has no other owner. Answers whether the key was
// there, and whether no limb is left.
fn change_limbs<K: Ord + Drop, V: Drop>(
    alloc: Global,
    limbs: &mut Arc<Vec<Limb<K, V>>>,
    change: &Change<'_, K, V>,
) -> Result<(bool, bool), AllocError>
    requires { IsOrderly K.cmp limb_list IsFitLimb (arc_value limbs.old).items }
    ensures entries { OnOk result (flat_map limb_list (arc_value limbs.new).items
        ≡ changed K.cmp change.now (flat_map limb_list (arc_value limbs.old).items)) }
    ensures was_there { IfOk result (λ r. r.0
        ≡ is_some (value_at K.cmp (flat_map limb_list (arc_value limbs.old).items) (change_key change.now))) }
    ensures emptied { IfOk result (λ r. IsTrue r.1 ↔ ((arc_value limbs.new).items ≡ [])) }
    ensures fits { All IsFitLimb (arc_value limbs.new).items }
    ensures err { OnErr result (flat_map limb_list (arc_value limbs.new).items
        ≡ flat_map limb_list (arc_value limbs.old).items) }
    ensures err_some { OnErr result (0 < length (arc_value limbs.new).items) }
{
    if let Some(list) = Arc::get_mut(limbs) {
        let was_there = change_in(alloc, list, change)?;
        return Ok((was_there, list.is_empty()));
    }
    let mut list = copied(alloc, limbs)?;
    let was_there = change_in(alloc, &mut list, change)?;
    let is_empty = list.is_empty();
    *limbs = Arc::new(alloc, list)?;
    Ok((was_there, is_empty))
}

// Makes the change in a map that may have no limbs, before or behind it.
fn change_all<K: Ord + Drop, V: Drop>(
    alloc: Global,
    limbs: &mut Option<Arc<Vec<Limb<K, V>>>>,
    change: &Change<'_, K, V>,
) -> Result<bool, AllocError>
    requires fits { IsFitTree limbs.old }
    requires rising { IsRising K.cmp (tree_list limbs.old) }
    ensures entries { OnOk result (tree_list limbs.new
        ≡ changed K.cmp change.now (tree_list limbs.old)) }
    ensures was_there { IfOk result (λ b. b
        ≡ is_some (value_at K.cmp (tree_list limbs.old) (change_key change.now))) }
    ensures fits { IsFitTree limbs.new }
    ensures err { OnErr result (tree_list limbs.new ≡ tree_list limbs.old) }
{
    match limbs {
        Some(list) => {
            let (was_there, is_empty) = change_limbs(alloc, list, change)?;
            if is_empty {
                *limbs = None;
            }
            Ok(was_there)
        }
        None => {
            if let Change::Put(entry) = *change {
                *limbs = Some(Arc::new(alloc, single(alloc, entry)?)?);
            }
            Ok(false)
        }
    }
}

// The limbs of a map with one entry.
fn single<K: Ord + Drop, V: Drop>(
    alloc: Global,
    entry: &Entry<K, V>,
) -> Result<Vec<Limb<K, V>>, AllocError>
    ensures entries { IfOk result (λ v. flat_map limb_list v.items
        ≡ (arc_value entry.now.key, arc_value entry.now.value) ∷ []) }
    ensures fits { IfOk result (λ v. All IsFitLimb v.items) }
    ensures some { IfOk result (λ v. 0 < vec_len v) }
{
    let leaf = node_of(alloc, vec![in alloc; entry.shared()?]?)?;
    let branch = node_of(alloc, vec![in alloc; leaf]?)?;
    let limb = node_of(alloc, vec![in alloc; branch]?)?;
    Ok(vec![in alloc; limb]?)
}

#[cfg(test)]
mod tests {
    use super::*;
    use std::test::Fail;

    #[test]
    fn calls_find_their_memory(rt: HostRuntime) -> Result<(), Fail> {
        let mut tree = Tree::new(rt.alloc());
        let key = Arc::new(rt.alloc(), 1_u8)?;
        assert!(rt; tree.insert(key, Arc::new(rt.alloc(), 2_u8)?).is_ok());
        let snapshot = tree.snapshot()?;
        assert!(rt; tree.remove(&1)?);
        assert!(rt; tree.is_empty());
        assert!(rt; snapshot.get(&1).is_some());
        Ok(())
    }
}
