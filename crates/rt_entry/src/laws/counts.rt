//! Laws of what bindings mean, who is registered, and how many there are.

ghost use Rattle.rt_catalog.specs.declared.catalog.Catalog.{Catalog as CatalogData};
ghost use Rattle.rt_entry.specs.declared.input.Settings.{Settings as SettingsData};
ghost use Rattle.rt_entry.specs.Sourced.{JoinsAreNext, JournalsAreCounted};
ghost use Rattle.rt_entry.specs.Sourced.{MeaningsAgree, MembersAreRegistered, MembersRise};

/// What a binding means doesn't depend on the role under which it is judged: two roles that don't
/// refuse it give it one meaning.
pub fn meanings_agree()
    ensures { (c : CatalogData) → MeaningsAgree c }
{}

/// A member's role is that of its claims, and under them its bindings mean what they meant at its
/// join, whatever renewals came between.
pub fn members_are_registered()
    ensures { (c : CatalogData) (s : SettingsData) → MembersAreRegistered c s }
{}

/// A story has a line for each input of its journal, and what an input finds has the journal's
/// length as its number, an opening or none for each of the 256 slots, at most 100 ids for each
/// input, and at most 100 channels of a slot.
pub fn journals_are_counted()
    ensures { (c : CatalogData) (s : SettingsData) → JournalsAreCounted c s }
{}

/// Members stand in the order of their numbers, each below the journal's length.
pub fn members_rise()
    ensures { (c : CatalogData) (s : SettingsData) → MembersRise c s }
{}

/// By an input nobody joins, or one channel, under the input's number and with the ids that follow
/// those that were given.
pub fn joins_are_next()
    ensures { (c : CatalogData) (s : SettingsData) → JoinsAreNext c s }
{}
