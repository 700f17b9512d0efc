ghost use Rattle.std.specs.Thread.{IsSend, IsSync};
ghost use Rattle.rt_value.specs.contracts.shared.Shared as shared;
ghost use Rattle.rt_value.specs.contracts.text.Text as text;
ghost use Rattle.rt_value.specs.contracts.bytes.Bytes as bytes;
ghost use Rattle.rt_value.specs.contracts.value.Value as value;
ghost use Rattle.rt_value.specs.contracts.list.List as list;
ghost use Rattle.rt_value.specs.contracts.row.Key as key;
ghost use Rattle.rt_value.specs.contracts.row.Row as row;
ghost use Rattle.rt_value.specs.contracts.edit.Edit as edit;
ghost use Rattle.rt_value.specs.contracts.claims.Claims as claims;

use crate::{Bytes, Claims, Edit, Key, Row, Text, Value};

/// What the bounds say of a type, as a fact: it may be given to a thread, and shared by threads.
pub fn may_share<T: Send + Sync>()
    ensures send { IsSend T.row }
    ensures sync { IsSync T.row }
{}

/// Each type of this crate that stands in what threads hand one another may be given to a thread,
/// and shared by threads.
pub fn data_may_be_shared()
    ensures text { IsSend text.the_row × IsSync text.the_row }
    ensures bytes { IsSend bytes.the_row × IsSync bytes.the_row }
    ensures value { IsSend value.the_row × IsSync value.the_row }
    ensures key { IsSend key.the_row × IsSync key.the_row }
    ensures row { IsSend row.the_row × IsSync row.the_row }
    ensures edit { IsSend edit.the_row × IsSync edit.the_row }
    ensures claims { IsSend claims.the_row × IsSync claims.the_row }
{
    may_share::<Text>();
    may_share::<Bytes>();
    may_share::<Value>();
    may_share::<Key>();
    may_share::<Row>();
    may_share::<Edit>();
    may_share::<Claims>();
}

/// So may a list of what may be, and a value behind `Shared`.
pub fn lists_may_be_shared<T: Send + Sync>()
    ensures list { IsSend (list.the_row T.row) × IsSync (list.the_row T.row) }
    ensures shared { IsSend (shared.the_row T.row) × IsSync (shared.the_row T.row) }
{}
