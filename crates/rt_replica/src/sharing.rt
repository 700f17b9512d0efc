ghost use Rattle.std.specs.Thread.{IsSend, IsSync};
ghost use Rattle.rt_replica.specs.contracts.tables.Tables as tables;

use crate::Tables;
use rt_value::may_share;

/// Tables may be given to a thread, and shared by threads.
pub fn tables_may_be_shared()
    ensures { IsSend tables.the_row × IsSync tables.the_row }
{
    may_share::<Tables>();
}
