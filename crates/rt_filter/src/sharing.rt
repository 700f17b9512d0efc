ghost use Rattle.std.specs.Thread.{IsSend, IsSync};
ghost use Rattle.rt_filter.specs.contracts.filter.Test as test;
ghost use Rattle.rt_filter.specs.contracts.subscription.Subscription as subscription;

use crate::{Subscription, Test};
use rt_value::may_share;

/// A test and a subscription may be given to a thread, and shared by threads.
pub fn tests_may_be_shared()
    ensures test { IsSend test.the_row × IsSync test.the_row }
    ensures subscription { IsSend subscription.the_row × IsSync subscription.the_row }
{
    may_share::<Test>();
    may_share::<Subscription>();
}
