//! Laws of what effects do, each on a function that does nothing.

ghost use Rattle.rt_catalog.specs.declared.catalog.Catalog.{Catalog as CatalogData};
ghost use Rattle.rt_entry.specs.declared.input.Settings.{Settings as SettingsData};
ghost use Rattle.rt_hub.specs.Present.{JournalsHaveOwnTracks, OwnTracksStay, PresenceFollows};
ghost use Rattle.rt_hub.specs.Present.{PresenceShows};
ghost use Rattle.rt_hub.specs.Registered.{MembersFollow, RegistryFollows, SubscriptionsAreKept};
ghost use Rattle.rt_hub.specs.Taking.{FramesAreTaken, FramesLeaveOthers, FramesWaitLast};
ghost use Rattle.rt_hub.specs.Taking.{TicksAreTaken};
ghost use Rattle.rt_hub.specs.Taking.{GoneIsShut, GoneLeavesOthers, JournalsHaveOwnChannels};
ghost use Rattle.rt_hub.specs.Taking.{PostsAndPollsLeave};
ghost use Rattle.rt_hub.specs.Doing.{EndsAreDone, FramesAreDone, JournalsAreApart, TicksAreDone};

/// Where a slot has one channel on a topic, as behind every journal, what a frame, a tick and an
/// end do is what their effects do, each asked of the socket alone.
pub fn effects_are_done()
    ensures apart { (c : CatalogData) (s : SettingsData) → JournalsAreApart c s }
    ensures frames { (c : CatalogData) (s : SettingsData) → FramesAreDone c s }
    ensures ticks { (c : CatalogData) (s : SettingsData) → TicksAreDone c s }
    ensures ends { (c : CatalogData) (s : SettingsData) → EndsAreDone c s }
{}

/// The members behind an input are those before it, changed by each part of the input in turn.
pub fn members_follow()
    ensures { (c : CatalogData) (s : SettingsData) → MembersFollow c s }
{}

/// What a registry keeps of the members behind an input is what it kept before, changed by each
/// part of the input in turn: a join adds a channel, a renewal changes its role and claims, a
/// departure takes it away. Its subscriptions are those of the members.
pub fn registry_follows()
    ensures kept { SubscriptionsAreKept }
    ensures follows { (c : CatalogData) (s : SettingsData) → RegistryFollows c s }
{}

/// A presence that stands for what is present shows what the journal says, though its tracks stand
/// in another order: states, differences, and what a member tracks. It does so where each track is
/// a member's, as behind every journal, also once channels have departed.
pub fn presence_shows()
    ensures apart { (c : CatalogData) (s : SettingsData) → JournalsHaveOwnTracks c s }
    ensures stay { OwnTracksStay }
    ensures shown { PresenceShows }
{}

/// The presence behind an input is the one before it, changed by each part of the input in turn: a
/// track takes the place of its channel's, and what untracks or departs goes.
pub fn presence_follows()
    ensures { (c : CatalogData) (s : SettingsData) → PresenceFollows c s }
{}

/// The socket of a slot behind a frame is the one that took it, once the join or the renewal that
/// it waits for is answered, and every other slot's is what it was; behind a tick each is the one
/// that took it. So it is where channels are told by their numbers and their topics, as behind
/// every journal. A frame asks to join or to renew once at most, and last.
pub fn sockets_follow()
    ensures apart { (c : CatalogData) (s : SettingsData) → JournalsHaveOwnChannels c s }
    ensures last { FramesWaitLast }
    ensures frames { (c : CatalogData) (s : SettingsData) → FramesAreTaken c s }
    ensures others { (c : CatalogData) (s : SettingsData) → FramesLeaveOthers c s }
    ensures ticks { (c : CatalogData) (s : SettingsData) → TicksAreTaken c s }
{}

/// Posts and polls leave every socket as it is, and a client that is gone leaves none on its slot
/// and every other slot's as it is, where channels are told so.
pub fn sockets_stay()
    ensures still { (c : CatalogData) (s : SettingsData) → PostsAndPollsLeave c s }
    ensures gone { (c : CatalogData) (s : SettingsData) → GoneIsShut c s }
    ensures others { (c : CatalogData) (s : SettingsData) → GoneLeavesOthers c s }
{}
