//! Laws of what a departure, a join and a renewal change.

ghost use Rattle.rt_entry.specs.Departing.{DeparturesAdd, DeparturesLeaveParts};
ghost use Rattle.rt_entry.specs.Departing.{DeparturesLeaveTracks};
ghost use Rattle.rt_entry.specs.Growing.{SubscriptionsDepart, SubscriptionsJoin};
ghost use Rattle.rt_entry.specs.Growing.{SubscriptionsRenew};
ghost use Rattle.rt_entry.specs.Growing.{WatchersDepart, WatchersJoin, WatchersLeft, WatchersRenew};

/// A departure leaves every other channel's track; channels depart one after another as they depart
/// together; and how a channel departs, closes or fails behind others is how it would where they
/// were gone before.
pub fn departures_leave_others()
    ensures tracks { DeparturesLeaveTracks }
    ensures together { DeparturesAdd }
    ensures parts { DeparturesLeaveParts }
{}

/// The subscriptions of a member more come behind; those of channels that depart go; and a renewal
/// changes the role and the claims of one channel's, and nothing else.
pub fn subscriptions_grow()
    ensures join { SubscriptionsJoin }
    ensures depart { SubscriptionsDepart }
    ensures renew { SubscriptionsRenew }
{}

/// Who watches a topic: a member more comes behind, channels that depart go, also while an input
/// lets them depart, and a renewal changes nobody's place.
pub fn watchers_grow()
    ensures join { WatchersJoin }
    ensures depart { WatchersDepart }
    ensures left { WatchersLeft }
    ensures renew { WatchersRenew }
{}
