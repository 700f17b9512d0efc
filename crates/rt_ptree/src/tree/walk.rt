ghost use Rattle.std.specs.Prelude.{◌≡◌, ◌++◌, [], All, flat_map};
ghost use Rattle.rt_ptree.specs.Orderly.{IsOrderly};
ghost use Rattle.rt_ptree.specs.Parts.{node_list, limb_list, entry_list, IsFitNode, IsFitLimb};
ghost use Rattle.rt_ptree.specs.Walk.{entries_from, level_list, left_list, entry_seen, IsFitWalk};

use super::{Branch, Leaf, Limb, Tree};
use crate::entry::Entry;
use crate::node::Node;
use crate::part::Part;
use crate::parts::place;
use crate::sought::Sought;
use std::marker::Model;
use std::sync::Arc;

/// An iterator over entries of a map, in the order of their keys. Contracts see the entries that are left.
#[derive(Drop)]
pub struct Entries<'a, K: Ord, V> {
    // What is left of a leaf, the leaves behind it in its branch, the branches behind that in its limb,
    // and the limbs behind that.
    entries: &'a [Entry<K, V>],
    leaves: &'a [Leaf<K, V>],
    branches: &'a [Branch<K, V>],
    limbs: &'a [Limb<K, V>],
}

impl<'a, K: Ord, V> Model for Entries<'a, K, V> {
    ghost use Rattle.std.specs.Prelude.{List};
    ghost use Rattle.std.specs.Coded.{coded_list, coded×};

    ghost Value = { List (K × V) };

    ghost coded = { coded_list (coded× K.code V.code) };

    ghost use Rattle.rt_ptree.specs.Walk.{left_list, IsFitWalk};

    ghost view = { λ e. left_list e.entries.now e.leaves.now e.branches.now e.limbs.now };

    ghost invariant = { λ e. IsFitWalk e.leaves.now e.branches.now e.limbs.now };
}

// The parts of the node at the key's place, and the nodes behind it.
fn opened<'a, K: Ord + Drop, V, C: Part<K, V>, Q: Sought<K>>(
    nodes: &'a [Arc<Node<K, C>>],
    key: &Q,
) -> (&'a [C], &'a [Arc<Node<K, C>>])
    requires { IsOrderly K.cmp (node_list C.entries) (IsFitNode C.MOST C.entries C.is_fit) nodes.now }
    ensures from { entries_from K.cmp (flat_map (node_list C.entries) nodes.now) (Q.stands_for key.now)
        ≡ entries_from K.cmp (flat_map C.entries result.0.now) (Q.stands_for key.now)
        ++ flat_map (node_list C.entries) result.1.now }
    ensures parts { IsOrderly K.cmp C.entries C.is_fit result.0.now }
    ensures nodes { All (IsFitNode C.MOST C.entries C.is_fit) result.1.now }
{
    let at = place(nodes, key);
    (&nodes[at].parts, &nodes[at + 1..])
}

// Of a leaf, the entries whose keys are not below the key.
fn leaf_from<'a, K: Ord + Drop, V: Drop, Q: Sought<K>>(
    entries: &'a [Entry<K, V>],
    key: &Q,
) -> &'a [Entry<K, V>]
    requires { IsOrderly K.cmp entry_list (λ _. Unit {0}) entries.now }
    ensures { flat_map entry_list result.now
        ≡ entries_from K.cmp (flat_map entry_list entries.now) (Q.stands_for key.now) }
{
    let at = place(entries, key);
    if key.order(&entries[at].key).is_le() {
        &entries[at..]
    } else {
        &entries[at + 1..]
    }
}

fn entries_in<'a, K: Ord + Drop, V: Drop, Q: Sought<K>>(
    limbs: &'a [Limb<K, V>],
    key: &Q,
) -> Entries<'a, K, V>
    requires { IsOrderly K.cmp limb_list IsFitLimb limbs.now }
    ensures { result ≡ entries_from K.cmp (flat_map limb_list limbs.now) (Q.stands_for key.now) }
{
    let (branches, limbs) = opened(limbs, key);
    let (leaves, branches) = opened(branches, key);
    let (entries, leaves) = opened(leaves, key);
    Entries {
        entries: leaf_from(entries, key),
        leaves,
        branches,
        limbs,
    }
}

impl<K: Ord + Drop, V: Drop> Tree<K, V> {
    /// The entries whose keys are not below `key`, which need not be there itself, in the order of their keys.
    /// It may be a key, or whatever stands for one.
    pub fn entries_from<Q: Sought<K>>(&self, key: &Q) -> Entries<'_, K, V>
        ensures { result ≡ entries_from K.cmp self.now (Q.stands_for key.now) }
    {
        match &self.limbs {
            Some(limbs) => entries_in(limbs, key),
            None => Entries {
                entries: &[],
                leaves: &[],
                branches: &[],
                limbs: &[],
            },
        }
    }
}

// Where no part is left, the parts of the next node.
fn refilled<'a, K: Ord + Drop, V, C: Part<K, V>>(
    parts: &'a [C],
    nodes: &'a [Arc<Node<K, C>>],
) -> (&'a [C], &'a [Arc<Node<K, C>>])
    requires parts { All C.is_fit parts.now }
    requires nodes { All (IsFitNode C.MOST C.entries C.is_fit) nodes.now }
    ensures same { level_list C.entries result.0.now result.1.now ≡ level_list C.entries parts.now nodes.now }
    ensures parts { All C.is_fit result.0.now }
    ensures nodes { All (IsFitNode C.MOST C.entries C.is_fit) result.1.now }
    ensures none { result.0.now ≡ [] → (nodes.now ≡ []) × (result.1.now ≡ []) }
{
    if !parts.is_empty() {
        return (parts, nodes);
    }
    match nodes.split_first() {
        Some((node, behind)) => (&node.parts, behind),
        None => (parts, nodes),
    }
}

// The same entries, with one in the first list where any is left.
fn ready<'a, K: Ord + Drop, V: Drop>(
    entries: &'a [Entry<K, V>],
    leaves: &'a [Leaf<K, V>],
    branches: &'a [Branch<K, V>],
    limbs: &'a [Limb<K, V>],
) -> (
    (&'a [Entry<K, V>], &'a [Leaf<K, V>]),
    (&'a [Branch<K, V>], &'a [Limb<K, V>]),
)
    requires { IsFitWalk leaves.now branches.now limbs.now }
    ensures same { left_list result.0.0.now result.0.1.now result.1.0.now result.1.1.now
        ≡ left_list entries.now leaves.now branches.now limbs.now }
    ensures fits { IsFitWalk result.0.1.now result.1.0.now result.1.1.now }
    ensures none { result.0.0.now ≡ [] → (result.0.1.now ≡ []) × (result.1.0.now ≡ []) × (result.1.1.now ≡ []) }
{
    let (branches, limbs) = refilled(branches, limbs);
    let (leaves, branches) = refilled(leaves, branches);
    let (entries, leaves) = refilled(entries, leaves);
    ((entries, leaves), (branches, limbs))
}

impl<'a, K: Ord + Drop, V: Drop> Iterator for Entries<'a, K, V> {
    type Item = (&'a K, &'a V);

    ghost use Rattle.std.specs.Iterator.{YieldsFirstBy, item_count};

    ghost next_gives = { YieldsFirstBy entry_seen (λ e. e) };

    ghost remaining = { item_count (λ e. e) };

    fn next(&mut self) -> Option<(&'a K, &'a V)> {
        ((self.entries, self.leaves), (self.branches, self.limbs)) = ready(
            self.entries,
            self.leaves,
            self.branches,
            self.limbs,
        );
        let (entry, entries) = self.entries.split_first()?;
        self.entries = entries;
        Some(entry.first())
    }
}
