ghost use Rattle.std.specs.Thread.{IsSend, IsSync};
ghost use Rattle.rt_registry.specs.contracts.binding.Binding as binding;
ghost use Rattle.rt_registry.specs.contracts.binding.Subscribed as subscribed;
ghost use Rattle.rt_registry.specs.contracts.subscriptions.Subscriptions as subscriptions;

use crate::{Binding, Subscribed, Subscriptions};
use rt_filter::{Subscription, tests_may_be_shared};
use rt_ptree::trees_may_be_shared;
use rt_value::may_share;

/// Each type of this crate that stands in what threads hand one another may be given to a thread,
/// and shared by threads.
pub fn subscriptions_may_be_shared()
    ensures binding { IsSend binding.the_row × IsSync binding.the_row }
    ensures subscribed { IsSend subscribed.the_row × IsSync subscribed.the_row }
    ensures subscriptions { IsSend subscriptions.the_row × IsSync subscriptions.the_row }
{
    tests_may_be_shared();
    trees_may_be_shared::<u64, Subscription>();
    may_share::<Binding>();
    may_share::<Subscribed>();
    may_share::<Subscriptions>();
}
