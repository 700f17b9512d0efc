ghost use Rattle.std.specs.Thread.{IsSend, IsSync};
ghost use Rattle.rt_channel.specs.contracts.answer.Answer as answer;
ghost use Rattle.rt_channel.specs.contracts.effect.Effect as effect;
ghost use Rattle.rt_channel.specs.contracts.effect.Wish as wish;
ghost use Rattle.rt_channel.specs.contracts.held.Held as held;
ghost use Rattle.rt_channel.specs.contracts.held.Joined as joined;

use crate::{Answer, Effect, Held, Joined, Wish};
use rt_json::trees_may_be_shared;
use rt_phx::messages_may_be_shared;
use rt_registry::subscriptions_may_be_shared;
use rt_value::{data_may_be_shared, may_share};

/// Each type of this crate may be given to a thread, and shared by threads.
pub fn sockets_may_be_shared()
    ensures answer { IsSend answer.the_row × IsSync answer.the_row }
    ensures joined { IsSend joined.the_row × IsSync joined.the_row }
    ensures held { IsSend held.the_row × IsSync held.the_row }
    ensures wish { IsSend wish.the_row × IsSync wish.the_row }
    ensures effect { IsSend effect.the_row × IsSync effect.the_row }
{
    data_may_be_shared();
    trees_may_be_shared();
    messages_may_be_shared();
    subscriptions_may_be_shared();
    may_share::<Answer>();
    may_share::<Joined>();
    may_share::<Held>();
    may_share::<Wish>();
    may_share::<Effect>();
}
