ghost use Rattle.std.specs.Prelude.{◌≡◌, IfOk, OnErr, is_some, flat_map};
ghost use Rattle.std.specs.Arc.{arc_value};
ghost use Rattle.std.specs.BTreeMap.{insert_entry};
ghost use Rattle.std.proofs.Math.Facts.{leb_yes};
ghost use Rattle.rt_ptree.specs.Entries.{value_at};
ghost use Rattle.rt_ptree.specs.Parts.{entry_list};
ghost use Rattle.rt_ptree.specs.Pieces.{pieces_list};

use crate::change::Change;
use crate::part::{Made, Part, Pieces};
use std::alloc::{AllocError, Global};
use std::cmp::Ordering;
use std::mem;
use std::sync::Arc;

/// A key and its value.
#[derive(Debug, Drop)]
pub struct Entry<K, V> {
    pub key: Arc<K>,
    pub value: Arc<V>,
}

impl<K: Drop, V: Drop> Entry<K, V> {
    // The entry with one owner more of its key and its value.
    pub fn shared(&self) -> Result<Self, AllocError>
        ensures key { IfOk result (λ e. arc_value e.key ≡ arc_value self.now.key) }
        ensures value { IfOk result (λ e. arc_value e.value ≡ arc_value self.now.value) }
    {
        Ok(Entry {
            key: Arc::try_clone(&self.key)?,
            value: Arc::try_clone(&self.value)?,
        })
    }
}

impl<K: Ord + Drop, V: Drop> Entry<K, V> {
    // Puts the other entry before this one or behind it, or its value in here.
    fn put(&mut self, other: &Entry<K, V>) -> Result<Made<Self>, AllocError>
        ensures entries { IfOk result (λ m. flat_map entry_list (pieces_list self.new m.pieces)
            ≡ insert_entry K.cmp (entry_list self.old) (arc_value other.now.key) (arc_value other.now.value)) }
        ensures was_there { IfOk result (λ m. m.was_there
            ≡ is_some (value_at K.cmp (entry_list self.old) (arc_value other.now.key))) }
        ensures err { OnErr result (self.new ≡ self.old) }
    {
        let order = (*other.key).cmp(&self.key);
        let pieces = match order {
            Ordering::Less => Pieces::Two(mem::replace(self, other.shared()?)),
            Ordering::Equal => {
                self.value = Arc::try_clone(&other.value)?;
                Pieces::One
            }
            Ordering::Greater => Pieces::Two(other.shared()?),
        };
        Ok(Made {
            pieces,
            was_there: order.is_eq(),
        })
    }
}

impl<K: Ord + Drop, V: Drop> Part<K, V> for Entry<K, V> {
    ghost entries = { entry_list };

    ghost is_fit = { λ _. Unit {0} };

    const MOST: usize = 12;

    ghost MOST = { 12 };

    ghost halves = { leb_yes tt };

    fn share(&self) -> Result<Self, AllocError> {
        self.shared()
    }

    fn first(&self) -> (&K, &V) {
        (&self.key, &self.value)
    }

    fn least(&self) -> &Arc<K> {
        &self.key
    }

    fn get(&self, key: &K) -> Option<&V> {
        match key.cmp(&self.key) {
            Ordering::Equal => Some(&self.value),
            _ => None,
        }
    }

    fn after(&self, key: &K) -> Option<(&K, &V)> {
        match key.cmp(&self.key) {
            Ordering::Less => Some(self.first()),
            _ => None,
        }
    }

    fn change(
        &mut self,
        _alloc: Global,
        change: &Change<'_, K, V>,
    ) -> Result<Made<Self>, AllocError> {
        match *change {
            Change::Put(entry) => self.put(entry),
            Change::Take(key) => {
                let was_there = key.cmp(&self.key).is_eq();
                let pieces = if was_there { Pieces::None } else { Pieces::One };
                Ok(Made { pieces, was_there })
            }
        }
    }
}
