//! The marks of a replica by their places, and their places by their dots.
ghost use Rattle.std.specs.Prelude.{◌≡◌, ℕ, None, Some, IfOk, OnOk, OnErr, cond};
ghost use Rattle.std.specs.Arc.{arc_value};
ghost use Rattle.rt_ptree.specs.Entries.{Updates};
ghost use Rattle.rt_cluster.specs.Operations.{is_dot};
ghost use Rattle.rt_cluster.specs.Index.{dot_cmp, place_cmp, place_of, tree_at, placed_at, IsIndexed};

use crate::dots::{Dot, Mark};
use rt_json::Json;
use rt_ptree::Tree;
use rt_value::Text;
use std::alloc::{AllocError, Global};
use std::sync::Arc;

/// Where a mark stands: marks are in order by topic and key in byte order, by node and by number.
#[derive(PartialEq, Eq, PartialOrd, Ord, Drop)]
pub struct Place {
    pub topic: Text,
    pub key: Text,
    pub dot: Dot,
}

/// The tree of each mark.
pub type Marks = Tree<Place, Json>;

/// The place of each mark, by its dot.
pub type Places = Tree<Dot, Place>;

/// Puts the entry in.
pub fn insert<K: Ord + Drop, V: Drop>(
    map: &mut Tree<K, V>,
    key: Arc<K>,
    value: Arc<V>,
) -> Result<(), AllocError>
    ensures ok { OnOk result
        (Updates K.cmp map.old map.new (arc_value key) (Some (arc_value value))) }
    ensures err { OnErr result (map.new ≡ map.old) }
{
    match map.insert(key, value) {
        Ok(()) => Ok(()),
        Err(_) => Err(AllocError),
    }
}

fn place_of(alloc: Global, mark: &Mark) -> Result<Place, AllocError>
    ensures { IfOk result (λ p. p ≡ place_of mark.now) }
{
    Ok(Place {
        topic: mark.topic.copy(alloc)?,
        key: mark.key.copy(alloc)?,
        dot: mark.dot,
    })
}

/// Puts in a mark whose dot none has.
pub fn put(
    alloc: Global,
    marks: &mut Marks,
    places: &mut Places,
    mark: &Mark,
) -> Result<(), AllocError>
    requires index { IsIndexed marks.old places.old }
    requires fresh { placed_at places.old mark.now.dot ≡ None }
    ensures marks { OnOk result
        (Updates place_cmp marks.old marks.new (place_of mark.now) (Some mark.now.tree)) }
    ensures places { OnOk result
        (Updates dot_cmp places.old places.new mark.now.dot (Some (place_of mark.now))) }
    ensures index { OnOk result (IsIndexed marks.new places.new) }
{
    let place = Arc::new(alloc, place_of(alloc, mark)?)?;
    let held = Arc::try_clone(&place)?;
    let dot = Arc::new(alloc, mark.dot)?;
    let tree = Arc::new(alloc, mark.tree.copy(alloc)?)?;
    insert(marks, place, tree)?;
    insert(places, dot, held)?;
    Ok(())
}

/// Takes out the mark of the dot, where there is one.
pub fn take(marks: &mut Marks, places: &mut Places, dot: &Dot) -> Result<(), AllocError>
    requires { IsIndexed marks.old places.old }
    ensures marks { OnOk result ((p : _) →
        tree_at marks.new p ≡ cond (is_dot dot.now p.dot) None (tree_at marks.old p)) }
    ensures places { OnOk result (Updates dot_cmp places.old places.new dot.now None) }
    ensures index { OnOk result (IsIndexed marks.new places.new) }
{
    match places.get(dot) {
        None => return Ok(()),
        Some(place) => marks.remove(place)?,
    };
    places.remove(dot)?;
    Ok(())
}
