ghost use Rattle.std.specs.Thread.{IsSend, IsSync};
ghost use Rattle.rt_phx.specs.contracts.message.Message as message;
ghost use Rattle.rt_phx.specs.contracts.message.Posting as posting;
ghost use Rattle.rt_phx.specs.contracts.message.Version as version;
ghost use Rattle.rt_phx.specs.contracts.end.EndName as end_name;
ghost use Rattle.rt_phx.specs.contracts.said.Said as said;

use crate::end::EndName;
use crate::message::{Message, Posting, Version};
use crate::said::Said;
use rt_value::may_share;

/// Each type of this crate that stands in what threads hand one another may be given to a thread,
/// and shared by threads.
pub fn messages_may_be_shared()
    ensures message { IsSend message.the_row × IsSync message.the_row }
    ensures said { IsSend said.the_row × IsSync said.the_row }
    ensures posting { IsSend posting.the_row × IsSync posting.the_row }
    ensures version { IsSend version.the_row × IsSync version.the_row }
    ensures end_name { IsSend end_name.the_row × IsSync end_name.the_row }
{
    may_share::<Message>();
    may_share::<Said>();
    may_share::<Posting>();
    may_share::<Version>();
    may_share::<EndName>();
}
