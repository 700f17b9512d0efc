ghost use Rattle.std.specs.Prelude.{◌≡◌};
ghost use Rattle.rt_ptree.specs.Change.{change_key};

use crate::entry::Entry;

/// What is to be done at a key.
#[derive(Drop)]
pub enum Change<'a, K, V> {
    // The entry goes in, or its value into the place of the one at its key.
    Put(&'a Entry<K, V>),
    // The entry at the key goes.
    Take(&'a K),
}

impl<'a, K, V> Change<'a, K, V> {
    pub fn key(&self) -> &'a K
        ensures { result.now ≡ change_key self.now }
    {
        match *self {
            Change::Put(entry) => &entry.key,
            Change::Take(key) => key,
        }
    }
}
