ghost use Rattle.std.specs.Thread.{IsSend, IsSync};
ghost use Rattle.rt_json.specs.contracts.tree.Json as json;
ghost use Rattle.rt_json.specs.contracts.tree.named.Member as member;

use crate::{Json, Member};
use rt_value::may_share;

/// A tree and a member may be given to a thread, and shared by threads.
pub fn trees_may_be_shared()
    ensures json { IsSend json.the_row × IsSync json.the_row }
    ensures member { IsSend member.the_row × IsSync member.the_row }
{
    may_share::<Json>();
    may_share::<Member>();
}
