//! Laws of the story: what the next input finds, members, tracks and ids.

ghost use Rattle.rt_catalog.specs.declared.catalog.Catalog.{Catalog as CatalogData};
ghost use Rattle.rt_entry.specs.declared.input.Settings.{Settings as SettingsData};
ghost use Rattle.rt_entry.specs.After.{StoryGrows, TablesGrow};
ghost use Rattle.rt_entry.specs.Ids.{IdsRise, ToldIdsRise};
ghost use Rattle.rt_entry.specs.Members.{NumbersAreApart, SlotsAreOpen, TopicsAreApart};
ghost use Rattle.rt_entry.specs.Ordered.{KeysAreTheChannels, ReferencesRise};
ghost use Rattle.rt_entry.specs.Tracks.{ChannelsTrackOnce, ReferencesAreApart, TracksAreMembers};

/// What an input finds comes from what the input before it found and did: openings, members with
/// their claims, tracks and ids; and the tables that it finds are those that the input before it
/// left.
pub fn story_grows()
    ensures now { (c : CatalogData) (s : SettingsData) → StoryGrows c s }
    ensures tables { (c : CatalogData) (s : SettingsData) → TablesGrow c s }
{}

/// Members of one number are one, and a slot has at most one member on a topic.
pub fn members_are_apart()
    ensures numbers { (c : CatalogData) (s : SettingsData) → NumbersAreApart c s }
    ensures topics { (c : CatalogData) (s : SettingsData) → TopicsAreApart c s }
{}

/// What is present: a channel tracks once, each track has a reference of its own that is below the
/// journal's length, and is of a member, on its topic.
pub fn tracks_are_apart()
    ensures channels { (c : CatalogData) (s : SettingsData) → ChannelsTrackOnce c s }
    ensures references { (c : CatalogData) (s : SettingsData) → ReferencesAreApart c s }
    ensures members { (c : CatalogData) (s : SettingsData) → TracksAreMembers c s }
{}

/// The slot of each member is open.
pub fn slots_are_open()
    ensures { (c : CatalogData) (s : SettingsData) → SlotsAreOpen c s }
{}

/// The subscriptions that stand are in the order of their ids, from 1 on, each under an id of its
/// own that was given; and so are the ids with which a channel is told of a change.
pub fn ids_rise()
    ensures standing { (c : CatalogData) (s : SettingsData) → IdsRise c s }
    ensures told { (c : CatalogData) (s : SettingsData) → ToldIdsRise c s }
{}

/// What is present stands in the order of the inputs that tracked it, each track under its
/// channel's key.
pub fn tracks_are_ordered()
    ensures references { (c : CatalogData) (s : SettingsData) → ReferencesRise c s }
    ensures keys { (c : CatalogData) (s : SettingsData) → KeysAreTheChannels c s }
{}
