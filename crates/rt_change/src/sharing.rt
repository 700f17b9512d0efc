ghost use Rattle.std.specs.Thread.{IsSend, IsSync};
ghost use Rattle.rt_change.specs.contracts.change.Change as change;

use crate::Change;
use rt_value::may_share;

/// A change may be given to a thread, and shared by threads.
pub fn changes_may_be_shared()
    ensures { IsSend change.the_row × IsSync change.the_row }
{
    may_share::<Change>();
}
