ghost use Rattle.std.specs.Prelude.{◌≡◌, [], IfOk, OnOk, OnErr, length, map};
ghost use Rattle.std.specs.Arc.{arc_value};
ghost use Rattle.std.specs.BTreeMap.{insert_entry};
ghost use Rattle.std.specs.List.Sorted.{IsStrictlySortedBy};
ghost use Rattle.std.specs.Ordering.{nat_cmp};
ghost use Rattle.rt_registry.specs.Numbered.{put_at, without};

use crate::ChannelView;
use rt_ptree::Tree;
use std::alloc::{AllocError, Global};
use std::marker::Model;
use std::sync::Arc;

/// The channels at one moment, in the order of their numbers, which is that of their joins. Copies
/// share them.
#[derive(Drop)]
pub struct ChannelViews {
    by_number: Tree<u32, ChannelView>,
}

impl Model for ChannelViews {
    ghost use Rattle.std.specs.Prelude as p;
    ghost use Rattle.std.specs.Coded.{coded_list};
    ghost use Rattle.std.specs.Map.{values_of};
    ghost use Rattle.rt_registry.specs.Numbered.{IsNumbered};
    ghost use Rattle.rt_entry.specs.declared.entry.ChannelView.{ChannelView};
    ghost use Rattle.rt_entry.specs.contracts.entry.ChannelView as channel_view;

    ghost Value = { p.List ChannelView };

    ghost coded = { coded_list channel_view.the_row.coded };

    ghost view = { λ v. values_of v.by_number };

    ghost invariant = { λ v. IsNumbered (λ (x : ChannelView). x.channel) v.by_number };
}

impl ChannelViews {
    /// No channel, which takes no memory.
    pub fn new(alloc: Global) -> Self
        ensures { result ≡ [] }
    {
        ChannelViews {
            by_number: Tree::new(alloc),
        }
    }

    /// How many there are.
    pub fn len(&self) -> usize
        ensures len { result ≡ length self.now }
        ensures rising { IsStrictlySortedBy nat_cmp (map (λ v. v.channel) self.now) }
    {
        self.by_number.len()
    }

    /// The same channels; nothing of them is copied.
    ///
    /// Errors: memory ran out.
    pub fn snapshot(&self) -> Result<Self, AllocError>
        ensures { IfOk result (λ v. v ≡ self.now) }
    {
        Ok(ChannelViews {
            by_number: self.by_number.snapshot()?,
        })
    }

    /// Puts the channel in, into the place of one with its number.
    ///
    /// Errors: memory ran out. The channels are then as they were.
    pub fn put(&mut self, alloc: Global, view: ChannelView) -> Result<(), AllocError>
        ensures ok { OnOk result (self.new ≡ put_at (λ v. v.channel) view self.old) }
        ensures err { OnErr result (self.new ≡ self.old) }
    {
        let number = Arc::new(alloc, view.channel)?;
        let view = Arc::new(alloc, view)?;
        insert(&mut self.by_number, number, view)?;
        Ok(())
    }

    /// Takes the channel with the number out, where there is one.
    ///
    /// Errors: memory ran out. The channels are then as they were.
    pub fn remove(&mut self, number: u32) -> Result<(), AllocError>
        ensures ok { OnOk result (self.new ≡ without (λ v. v.channel) number self.old) }
        ensures err { OnErr result (self.new ≡ self.old) }
    {
        self.by_number.remove(&number)?;
        Ok(())
    }
}

// Puts the channel in at the number.
fn insert(
    by_number: &mut Tree<u32, ChannelView>,
    number: Arc<u32>,
    view: Arc<ChannelView>,
) -> Result<(), AllocError>
    ensures ok { OnOk result (by_number.new
        ≡ insert_entry nat_cmp by_number.old (arc_value number) (arc_value view)) }
    ensures err { OnErr result (by_number.new ≡ by_number.old) }
{
    match by_number.insert(number, view) {
        Ok(()) => Ok(()),
        Err(_) => Err(AllocError),
    }
}
