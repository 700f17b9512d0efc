ghost use Rattle.std.specs.Prelude.{◌≡◌, [], IfOk, OnOk, OnErr, length, map};
ghost use Rattle.std.specs.Arc.{arc_value};
ghost use Rattle.std.specs.BTreeMap.{insert_entry};
ghost use Rattle.std.specs.List.Sorted.{IsStrictlySortedBy};
ghost use Rattle.std.specs.Ordering.{nat_cmp};
ghost use Rattle.rt_registry.specs.Numbered.{put_at, without};

use rt_filter::Subscription;
use rt_ptree::Tree;
use std::alloc::{AllocError, Global};
use std::marker::Model;
use std::sync::Arc;

/// The subscriptions of all channels at one moment, by id. Copies share them.
#[derive(Drop)]
pub struct Subscriptions {
    by_id: Tree<u64, Subscription>,
}

impl Model for Subscriptions {
    ghost use Rattle.std.specs.Prelude as p;
    ghost use Rattle.std.specs.Map.{values_of};
    ghost use Rattle.rt_filter.specs.declared.subscription.Subscription.{Subscription};
    ghost use Rattle.rt_registry.specs.Numbered.{IsNumbered};

    ghost Value = { p.List Subscription };

    ghost view = { λ s. values_of s.by_id };

    ghost invariant = { λ s. IsNumbered (λ (x : Subscription). x.id) s.by_id };
}

impl Subscriptions {
    /// No subscription, which takes no memory.
    pub fn new(alloc: Global) -> Self
        ensures { result ≡ [] }
    {
        Subscriptions {
            by_id: Tree::new(alloc),
        }
    }

    /// How many there are.
    pub fn len(&self) -> usize
        ensures len { result ≡ length self.now }
        ensures rising { IsStrictlySortedBy nat_cmp (map (λ s. s.id) self.now) }
    {
        self.by_id.len()
    }

    /// The same subscriptions; nothing of them is copied.
    ///
    /// Errors: memory ran out.
    pub fn snapshot(&self) -> Result<Self, AllocError>
        ensures { IfOk result (λ s. s ≡ self.now) }
    {
        Ok(Subscriptions {
            by_id: self.by_id.snapshot()?,
        })
    }

    /// Puts the subscription in, into the place of one with its id.
    ///
    /// Errors: memory ran out. The subscriptions are then as they were.
    pub fn put(&mut self, alloc: Global, subscription: Subscription) -> Result<(), AllocError>
        ensures ok { OnOk result (self.new ≡ put_at (λ s. s.id) subscription self.old) }
        ensures err { OnErr result (self.new ≡ self.old) }
    {
        let id = Arc::new(alloc, subscription.id)?;
        let subscription = Arc::new(alloc, subscription)?;
        insert(&mut self.by_id, id, subscription)?;
        Ok(())
    }

    /// Takes the subscription with the id out, where there is one.
    ///
    /// Errors: memory ran out. The subscriptions are then as they were.
    pub fn remove(&mut self, id: u64) -> Result<(), AllocError>
        ensures ok { OnOk result (self.new ≡ without (λ s. s.id) id self.old) }
        ensures err { OnErr result (self.new ≡ self.old) }
    {
        self.by_id.remove(&id)?;
        Ok(())
    }
}

// Puts the subscription in at the id.
fn insert(
    by_id: &mut Tree<u64, Subscription>,
    id: Arc<u64>,
    subscription: Arc<Subscription>,
) -> Result<(), AllocError>
    ensures ok { OnOk result (by_id.new
        ≡ insert_entry nat_cmp by_id.old (arc_value id) (arc_value subscription)) }
    ensures err { OnErr result (by_id.new ≡ by_id.old) }
{
    match by_id.insert(id, subscription) {
        Ok(()) => Ok(()),
        Err(_) => Err(AllocError),
    }
}
