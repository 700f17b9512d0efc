ghost use Rattle.std.specs.Prelude.{◌≡◌, ◌==◌, ◌<◌, ◌+◌, ◌++◌, [], ◌∷◌, List, map, filter, IfOk, OnOk, OnErr, Contains};
ghost use Rattle.std.specs.List.Sorted.{IsStrictlySortedBy};
ghost use Rattle.rt_cluster.specs.Operations.{Operation, removes, HasOneTrackADot, is_among, is_own, dot_at, mark_at};
ghost use Rattle.rt_cluster.specs.Operations.{tracked, untracked, dropped};
ghost use Rattle.rt_cluster.specs.declared.dots.Dot.{Dot as DotData};
ghost use Rattle.rt_cluster.specs.Shown.{mark_cmp, state_tree, presence};
ghost use Rattle.rt_cluster.specs.Standing.{StandFor, StandsFor, Stands, IsBehind};

use crate::dots::{Delta, Dot, Mark};
use crate::merging::apply;
use crate::places::{Marks, Place, Places};
use crate::seen::Seen;
use crate::walks::{dots_beside, dots_of_node, held_on, marks_in};
use rt_json::Json;
use rt_presence::metas_tree;
use rt_ptree::Tree;
use rt_value::{List, Text};
use std::alloc::{AllocError, Global};
use std::marker::Model;

/// What a node knows of presence: the marks that are live, and the dots of all tracks that it has
/// heard of.
///
/// Contracts see a `Known`: the node, how many tracks it made, the live marks in their order, and
/// the dots. They say for which operations it stands.
#[derive(Drop)]
pub struct Replica {
    node: u32,
    made: u32,
    marks: Marks,
    places: Places,
    seen: Seen,
}

impl Model for Replica {
    ghost use Rattle.std.specs.Prelude.{map};
    ghost use Rattle.rt_cluster.specs.Index.{mark_of, IsKept};
    ghost use Rattle.rt_cluster.specs.Standing.{Known, known_code};
    ghost use Rattle.rt_cluster.specs.contracts.dots.Mark as mark;
    ghost use Rattle.rt_cluster.specs.contracts.dots.Dot as dot;

    ghost Value = { Known };

    ghost coded = { known_code mark.the_row.coded dot.the_row.coded };

    ghost view = { λ r. record {
      node = r.node;
      made = r.made;
      live = map mark_of r.marks;
      seen = r.seen;
    } };

    ghost invariant = { λ r. IsKept r.marks r.places r.seen };
}

impl Replica {
    /// A node that knows nothing. Takes no memory.
    pub fn new(alloc: Global, node: u32) -> Self
        ensures stands { Stands result [] }
        ensures node { result.node ≡ node }
    {
        Replica {
            node,
            made: 0,
            marks: Tree::new(alloc),
            places: Tree::new(alloc),
            seen: Seen::new(alloc),
        }
    }

    // Takes the delta in. The node made so many tracks then.
    fn take_in(&mut self, alloc: Global, delta: &Delta, made: u32) -> Result<(), AllocError>
        ensures sets { OnOk result ((known said : List Operation) →
            StandFor (Contains self.old.live) (is_among self.old.seen) known →
            StandsFor delta.now said → HasOneTrackADot (said ++ known) →
            StandFor (Contains self.new.live) (is_among self.new.seen) (said ++ known)) }
        ensures rising { OnOk result (IsStrictlySortedBy mark_cmp self.new.live) }
        ensures node { OnOk result (self.new.node ≡ self.old.node) }
        ensures made { OnOk result (self.new.made ≡ made) }
        ensures err { OnErr result (self.new ≡ self.old) }
    {
        let mut marks = self.marks.snapshot()?;
        let mut places = self.places.snapshot()?;
        let mut seen = self.seen.snapshot()?;
        apply(alloc, &mut marks, &mut places, &mut seen, delta)?;
        self.marks = marks;
        self.places = places;
        self.seen = seen;
        self.made = made;
        Ok(())
    }

    /// Takes in what another node tells, once or again, early or late: a mark stays, or comes,
    /// where both know it live, or where one does and the other hasn't seen its dot. It then
    /// stands for the operations that it stood for and those that the delta stands for, where no
    /// two different tracks among them have one dot, and the delta has no track of this node's own
    /// behind its last one.
    ///
    /// Errors: memory ran out. Nothing has changed then.
    pub fn merge(&mut self, alloc: Global, delta: &Delta) -> Result<(), AllocError>
        ensures ok { OnOk result ((known said : List Operation) →
            Stands self.old known → StandsFor delta.now said → HasOneTrackADot (said ++ known) →
            IsBehind self.old.node said known → Stands self.new (said ++ known)) }
        ensures node { OnOk result (self.new.node ≡ self.old.node) }
        ensures err { OnErr result (self.new ≡ self.old) }
    {
        let made = self.made();
        self.take_in(alloc, delta, made)?;
        Ok(())
    }

    // The dots of this node's marks under the key.
    fn own_dots(&self, alloc: Global, topic: &Text, key: &Text) -> Result<Vec<Dot>, AllocError>
        ensures { IfOk result (λ dots. dots.items
            ≡ map (λ m. m.dot) (filter (is_own self.now.node topic.now key.now) self.now.live)) }
    {
        let dot = Dot {
            node: self.node,
            number: 0,
        };
        let topic = topic.copy(alloc)?;
        let key = key.copy(alloc)?;
        let least = Place { topic, key, dot };
        let dots = dots_beside(alloc, &self.marks, &least)?;
        Ok(dots)
    }

    // The dots of the node's marks.
    fn dots_of(&self, alloc: Global, node: u32) -> Result<Vec<Dot>, AllocError>
        ensures { IfOk result (λ dots. (d : DotData) → is_among dots.items d
            ≡ is_among (map (λ m. m.dot) (filter (λ m. node == m.dot.node) self.now.live)) d) }
    {
        let dots = dots_of_node(alloc, &self.places, node)?;
        Ok(dots)
    }

    // Takes these dots' marks out, and tells it.
    fn remove(&mut self, alloc: Global, dots: Vec<Dot>) -> Result<Delta, AllocError>
        ensures ok { OnOk result ((known : List Operation) (gone : List DotData) →
            Stands self.old known → HasOneTrackADot known →
            ((d : DotData) → is_among dots.items d ≡ is_among gone d) →
            Stands self.new (removes gone ∷ known)) }
        ensures said { IfOk result (λ delta. (gone : List DotData) →
            ((d : DotData) → is_among dots.items d ≡ is_among gone d) →
            StandsFor delta (removes gone ∷ [])) }
        ensures node { OnOk result (self.new.node ≡ self.old.node) }
        ensures err { OnErr result (self.new ≡ self.old) }
    {
        let none = Vec::new(alloc);
        let live = List::new(none);
        let seen = List::new(dots);
        let delta = Delta { live, seen };
        let made = self.made();
        self.take_in(alloc, &delta, made)?;
        Ok(delta)
    }

    /// This node tracks nothing under the key of the topic from here on. Answers what to tell the
    /// others: it stands for that removal. The replica stands for it and what it stood for.
    ///
    /// Errors: memory ran out. Nothing has changed then.
    pub fn untrack(&mut self, alloc: Global, topic: &Text, key: &Text) -> Result<Delta, AllocError>
        ensures ok { OnOk result ((known : List Operation) →
            Stands self.old known → HasOneTrackADot known →
            Stands self.new (untracked self.old.node topic.now key.now known ∷ known)) }
        ensures said { IfOk result (λ delta. (known : List Operation) → Stands self.old known →
            StandsFor delta (untracked self.old.node topic.now key.now known ∷ [])) }
        ensures node { OnOk result (self.new.node ≡ self.old.node) }
        ensures err { OnErr result (self.new ≡ self.old) }
    {
        let dots = self.own_dots(alloc, topic, key)?;
        let delta = self.remove(alloc, dots)?;
        Ok(delta)
    }

    /// Removes all that the node shows here, as where it is found to be down. Answers what to tell
    /// the others: it stands for that removal. The replica stands for it and what it stood for.
    /// Tracks that weren't heard of here are none of it.
    ///
    /// Errors: memory ran out. Nothing has changed then.
    pub fn drop_node(&mut self, alloc: Global, node: u32) -> Result<Delta, AllocError>
        ensures ok { OnOk result ((known : List Operation) →
            Stands self.old known → HasOneTrackADot known →
            Stands self.new (dropped node known ∷ known)) }
        ensures said { IfOk result (λ delta. (known : List Operation) → Stands self.old known →
            StandsFor delta (dropped node known ∷ [])) }
        ensures node { OnOk result (self.new.node ≡ self.old.node) }
        ensures err { OnErr result (self.new ≡ self.old) }
    {
        let dots = self.dots_of(alloc, node)?;
        let delta = self.remove(alloc, dots)?;
        Ok(delta)
    }

    /// How many tracks this node made.
    pub fn made(&self) -> u32
        ensures { result ≡ self.now.made }
    {
        self.made
    }

    // What a track tells.
    fn tracking(
        &self,
        alloc: Global,
        topic: &Text,
        key: &Text,
        tree: Json,
        number: u32,
    ) -> Result<Delta, AllocError>
        ensures live { IfOk result (λ delta. delta.live
            ≡ mark_at (dot_at self.now.node number) topic.now key.now tree ∷ []) }
        ensures seen { IfOk result (λ delta. delta.seen
            ≡ map (λ m. m.dot) (filter (is_own self.now.node topic.now key.now) self.now.live)
            ++ dot_at self.now.node number ∷ []) }
    {
        let dot = Dot {
            node: self.node,
            number,
        };
        let mut seen = self.own_dots(alloc, topic, key)?;
        seen.push(dot)?;
        let topic = topic.copy(alloc)?;
        let key = key.copy(alloc)?;
        let mark = Mark {
            dot,
            topic,
            key,
            tree,
        };
        let mut live = Vec::new(alloc);
        live.push(mark)?;
        let live = List::new(live);
        let seen = List::new(seen);
        Ok(Delta { live, seen })
    }

    /// This node tracks the tree under the key of the topic, in place of what it tracked there
    /// itself. Answers what to tell the others: it stands for that track. The replica stands for it
    /// and what it stood for. A node makes at most `u32::MAX` tracks; `made` says how many it made.
    ///
    /// Errors: memory ran out. Nothing has changed then.
    pub fn track(
        &mut self,
        alloc: Global,
        topic: &Text,
        key: &Text,
        tree: Json,
    ) -> Result<Delta, AllocError>
        requires { self.old.made < 4294967295 }
        ensures ok { OnOk result ((known : List Operation) →
            Stands self.old known → HasOneTrackADot known →
            Stands self.new (tracked self.old.node topic.now key.now tree known ∷ known)) }
        ensures said { IfOk result (λ delta. (known : List Operation) → Stands self.old known →
            StandsFor delta (tracked self.old.node topic.now key.now tree known ∷ [])) }
        ensures node { OnOk result (self.new.node ≡ self.old.node) }
        ensures made { OnOk result (self.new.made ≡ self.old.made + 1) }
        ensures err { OnErr result (self.new ≡ self.old) }
    {
        let number = self.made() + 1;
        let delta = self.tracking(alloc, topic, key, tree, number)?;
        self.take_in(alloc, &delta, number)?;
        Ok(delta)
    }

    /// All that this node knows. It stands for what the replica stands for.
    ///
    /// Errors: memory ran out.
    pub fn whole(&self, alloc: Global) -> Result<Delta, AllocError>
        ensures { IfOk result (λ delta. (known : List Operation) → Stands self.now known →
            StandsFor delta known) }
    {
        let live = marks_in(alloc, &self.marks)?;
        let seen = self.seen.dots(alloc)?;
        let live = List::new(live);
        let seen = List::new(seen);
        Ok(Delta { live, seen })
    }

    /// The presence state of the topic: the keys in byte order, the metas of a key by node and
    /// number. Fails for want of memory alone.
    pub fn state(&self, alloc: Global, topic: &Text) -> Result<Json, AllocError>
        ensures tree { IfOk result (λ tree. tree ≡ state_tree self.now.live topic.now) }
        ensures shown { IfOk result (λ tree. (known : List Operation) → Stands self.now known →
            HasOneTrackADot known → tree ≡ presence known topic.now) }
    {
        let held = held_on(alloc, &self.marks, topic)?;
        let tree = metas_tree(alloc, held)?;
        Ok(tree)
    }
}
