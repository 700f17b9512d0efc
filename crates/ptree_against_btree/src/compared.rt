use rt_ptree::Tree;
use std::alloc::{AllocError, Global};
use std::collections::BTreeMap;
use std::sync::Arc;

/// How many steps of each kind there were, and at how many the tree answered otherwise than the map.
#[derive(Clone, Copy)]
pub struct Counts {
    pub inserted: u32,
    pub replaced: u32,
    pub removed: u32,
    pub absent: u32,
    pub differing: u32,
}

/// How many snapshots and entries in them were walked, and how many snapshots differ.
#[derive(Clone, Copy)]
pub struct Walked {
    pub snapshots: usize,
    pub entries: usize,
    pub differing: u32,
}

// A snapshot, and what the map held when it was taken.
#[derive(Drop)]
struct Kept {
    snapshot: Tree<u32, u32>,
    entries: Vec<(u32, u32)>,
}

/// A tree and a map that are changed alike.
#[derive(Drop)]
pub struct Compared {
    alloc: Global,
    tree: Tree<u32, u32>,
    map: BTreeMap<u32, u32>,
    kept: Vec<Kept>,
    counts: Counts,
}

impl Compared {
    pub(crate) fn new(alloc: Global) -> Self {
        Compared {
            alloc,
            tree: Tree::new(alloc),
            map: BTreeMap::new(alloc),
            kept: Vec::new(alloc),
            counts: Counts {
                inserted: 0,
                replaced: 0,
                removed: 0,
                absent: 0,
                differing: 0,
            },
        }
    }

    pub(crate) fn counts(&self) -> Counts {
        self.counts
    }

    pub(crate) fn len(&self) -> usize {
        self.tree.len()
    }

    pub(crate) fn insert(&mut self, key: u32, value: u32) -> Result<(), AllocError> {
        let shared = (Arc::new(self.alloc, key)?, Arc::new(self.alloc, value)?);
        self.tree
            .insert(shared.0, shared.1)
            .map_err(|_| AllocError)?;
        match self.map.insert(key, value)? {
            Some(_) => self.counts.replaced = self.counts.replaced.saturating_add(1),
            None => self.counts.inserted = self.counts.inserted.saturating_add(1),
        }
        self.compare_len();
        Ok(())
    }

    pub(crate) fn remove(&mut self, key: u32) -> Result<(), AllocError> {
        let was_there = self.tree.remove(&key)?;
        let was_in_map = self.map.remove(&key).is_some();
        self.note(was_there == was_in_map);
        if was_there {
            self.counts.removed = self.counts.removed.saturating_add(1);
        } else {
            self.counts.absent = self.counts.absent.saturating_add(1);
        }
        self.compare_len();
        Ok(())
    }

    /// Compares what the two have at the key.
    pub(crate) fn look_up(&mut self, key: u32) {
        let same = self.tree.get(&key).copied() == self.map.get(&key).copied();
        self.note(same);
    }

    /// Compares the walks from the key on.
    pub(crate) fn walk_from(&mut self, from: u32) {
        let same = has_rest(&self.tree, &self.map, from);
        self.note(same);
    }

    pub(crate) fn take_snapshot(&mut self) -> Result<(), AllocError> {
        let snapshot = self.tree.snapshot()?;
        let entries = entries_of(self.alloc, &self.map)?;
        self.kept.push(Kept { snapshot, entries })?;
        Ok(())
    }

    /// Walks each snapshot against what the map held when it was taken.
    pub(crate) fn walk_snapshots(&self) -> Walked {
        let mut walked = Walked {
            snapshots: self.kept.len(),
            entries: 0,
            differing: 0,
        };
        for kept in &self.kept {
            walked.entries = walked.entries.saturating_add(kept.entries.len());
            if !holds(&kept.snapshot, &kept.entries) {
                walked.differing = walked.differing.saturating_add(1);
            }
        }
        walked
    }

    /// Whether a walk of the tree gives the entries of the map.
    pub(crate) fn is_same(&self) -> Result<bool, AllocError> {
        let entries = entries_of(self.alloc, &self.map)?;
        Ok(holds(&self.tree, &entries))
    }

    fn compare_len(&mut self) {
        let same = self.tree.len() == self.map.len();
        self.note(same);
    }

    fn note(&mut self, same: bool) {
        if !same {
            self.counts.differing = self.counts.differing.saturating_add(1);
        }
    }
}

fn entries_of(alloc: Global, map: &BTreeMap<u32, u32>) -> Result<Vec<(u32, u32)>, AllocError> {
    map.iter().map(|(key, value)| (*key, *value)).collect(alloc)
}

// Whether a walk of the tree gives these entries, and no more.
fn holds(tree: &Tree<u32, u32>, entries: &[(u32, u32)]) -> bool {
    let mut next = tree.first();
    for (key, value) in entries {
        match next {
            Some((k, v)) if k == key && v == value => next = tree.after(key),
            _ => return false,
        }
    }
    next.is_none() && tree.len() == entries.len()
}

// Whether a walk of the tree from the key on gives what the map has there, and no more.
fn has_rest(tree: &Tree<u32, u32>, map: &BTreeMap<u32, u32>, from: u32) -> bool {
    let mut walk = tree.entries_from(&from);
    for (key, value) in map {
        if *key >= from {
            match walk.next() {
                Some((k, v)) if k == key && v == value => {}
                _ => return false,
            }
        }
    }
    walk.next().is_none()
}
