/// Why a change is kept from a subscription.
#[derive(Clone, Copy, Debug, Drop, PartialEq, Eq)]
pub enum Denial {
    /// The subscription doesn't ask for the event.
    Event,
    /// The change doesn't pass the subscription's filter.
    Filter,
    /// The row isn't in the table any more.
    RowGone,
    /// No policy for reading applies to the role.
    NoPolicy,
    /// No permissive policy is true.
    NonePermits,
    /// The number of the first restrictive policy, by name, that isn't true.
    Restrictive(u32),
}

/// What a subscription gets of a change.
#[derive(Clone, Copy, Debug, Drop, PartialEq, Eq)]
pub enum Verdict {
    /// The change with its values.
    Deliver,
    /// The record names no primary key.
    Error400,
    /// The role may not SELECT the key.
    Error401,
    /// Nothing, for this reason.
    Denied(Denial),
}
