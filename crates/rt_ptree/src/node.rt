ghost use Rattle.std.specs.Prelude.{◌≡◌, ◌≤◌, ◌<◌, ◌+◌, IfOk, OnErr, All, vec_len, flat_map};
ghost use Rattle.std.proofs.Math.Facts.{leb_yes};
ghost use Rattle.rt_ptree.specs.Parts.{node_list, IsFitNode};
ghost use Rattle.rt_ptree.specs.Pieces.{pieces_list};

use crate::change::Change;
use crate::part::{Made, Part, Pieces};
use crate::parts::{after_in, change_in, copied, first_in, get_in, least_in};
use std::alloc::{AllocError, Global};
use std::sync::Arc;

/// A list of parts, and the least key in it: a leaf is one of entries, a branch one of leaves.
#[derive(Debug, Drop)]
pub struct Node<K, C> {
    least: Arc<K>,
    pub parts: Vec<C>,
}

// The shared node of these parts.
pub fn node_of<K: Ord + Drop, V, C: Part<K, V>>(
    alloc: Global,
    parts: Vec<C>,
) -> Result<Arc<Node<K, C>>, AllocError>
    requires some { 0 < vec_len parts }
    requires len { vec_len parts ≤ C.MOST }
    requires fits { All C.is_fit parts.items }
    ensures entries { IfOk result (λ n. node_list C.entries n ≡ flat_map C.entries parts.items) }
    ensures fit { IfOk result (IsFitNode C.MOST C.entries C.is_fit) }
{
    let least = Arc::try_clone(least_in(&parts))?;
    Ok(Arc::new(alloc, Node { least, parts })?)
}

// Puts the list into the place of the node. One that fills a node is cut, so that the halves have room.
fn replace<K: Ord + Drop, V, C: Part<K, V>>(
    node: &mut Arc<Node<K, C>>,
    alloc: Global,
    mut parts: Vec<C>,
) -> Result<Pieces<Arc<Node<K, C>>>, AllocError>
    requires len { vec_len parts ≤ C.MOST + 1 }
    requires fits { All C.is_fit parts.items }
    ensures entries { IfOk result (λ p. flat_map (node_list C.entries) (pieces_list node.new p)
        ≡ flat_map C.entries parts.items) }
    ensures fits { IfOk result (λ p. All (IsFitNode C.MOST C.entries C.is_fit) (pieces_list node.new p)) }
    ensures err { OnErr result (node.new ≡ node.old) }
{
    if parts.is_empty() {
        return Ok(Pieces::None);
    }
    if parts.len() < C::MOST {
        *node = node_of(alloc, parts)?;
        return Ok(Pieces::One);
    }
    let upper = parts.split_off(parts.len() / 2)?;
    let upper = node_of(alloc, upper)?;
    *node = node_of(alloc, parts)?;
    Ok(Pieces::Two(upper))
}

impl<K: Ord + Drop, V, C: Part<K, V>> Part<K, V> for Arc<Node<K, C>> {
    ghost entries = { node_list C.entries };

    ghost is_fit = { IsFitNode C.MOST C.entries C.is_fit };

    const MOST: usize = 12;

    ghost MOST = { 12 };

    ghost halves = { leb_yes tt };

    fn share(&self) -> Result<Self, AllocError> {
        Arc::try_clone(self)
    }

    fn first(&self) -> (&K, &V) {
        first_in(&self.parts)
    }

    fn least(&self) -> &Arc<K> {
        &self.least
    }

    fn get(&self, key: &K) -> Option<&V> {
        get_in(&self.parts, key)
    }

    fn after(&self, key: &K) -> Option<(&K, &V)> {
        after_in(&self.parts, key)
    }

    fn change(
        &mut self,
        alloc: Global,
        change: &Change<'_, K, V>,
    ) -> Result<Made<Self>, AllocError> {
        if let Some(node) = Arc::get_mut(self) {
            // A change above the least key leaves it.
            if node.parts.len() < C::MOST && change.key().cmp(&node.least).is_gt() {
                let was_there = change_in(alloc, &mut node.parts, change)?;
                return Ok(Made {
                    pieces: Pieces::One,
                    was_there,
                });
            }
        }
        let mut parts = copied(alloc, &self.parts)?;
        let was_there = change_in(alloc, &mut parts, change)?;
        let pieces = replace(self, alloc, parts)?;
        Ok(Made { pieces, was_there })
    }
}
