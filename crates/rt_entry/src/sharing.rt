ghost use Rattle.std.specs.Thread.{IsSend, IsSync};
ghost use Rattle.rt_entry.specs.contracts.answer.Item as item;
ghost use Rattle.rt_entry.specs.contracts.entry.ChannelView as channel_view;
ghost use Rattle.rt_entry.specs.contracts.entry.Entry as entry;
ghost use Rattle.rt_entry.specs.contracts.input.Input as input;
ghost use Rattle.rt_entry.specs.contracts.views.ChannelViews as channel_views;

use crate::{ChannelView, ChannelViews, Item};
use rt_value::may_share;

/// The views of channels may be given to a thread, and shared by threads.
pub fn views_may_be_shared()
    ensures view { IsSend channel_view.the_row × IsSync channel_view.the_row }
    ensures views { IsSend channel_views.the_row × IsSync channel_views.the_row }
{
    rt_value::data_may_be_shared();
    rt_json::trees_may_be_shared();
    rt_ptree::trees_may_be_shared::<u32, ChannelView>();
    may_share::<ChannelViews>();
}

/// Each type of this crate that stands in what threads hand one another may be given to a thread,
/// and shared by threads.
pub fn handed_may_be_shared()
    ensures channel_view { IsSend channel_view.the_row × IsSync channel_view.the_row }
    ensures item { IsSend item.the_row × IsSync item.the_row }
    ensures input { IsSend input.the_row × IsSync input.the_row }
    ensures entry { IsSend entry.the_row × IsSync entry.the_row }
{
    rt_value::data_may_be_shared();
    rt_json::trees_may_be_shared();
    rt_phx::messages_may_be_shared();
    rt_change::changes_may_be_shared();
    rt_registry::subscriptions_may_be_shared();
    rt_replica::tables_may_be_shared();
    views_may_be_shared();
    may_share::<Item>();
}
