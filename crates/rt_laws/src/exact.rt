ghost use Rattle.rt_catalog.specs.declared.catalog.Catalog.{Catalog as CatalogData};
ghost use Rattle.rt_entry.specs.declared.input.Settings.{Settings as SettingsData};
ghost use Rattle.rt_laws.specs.Exact.{CutsArePut, OnlyPollsTellChanges};

/// An input that is no poll says no message of the event of changes.
pub fn only_polls_tell_changes()
    ensures { (c : CatalogData) (s : SettingsData) → OnlyPollsTellChanges c s }
{}

/// After any list of steps, each cut of a slot was put there by a push on that slot at which its
/// outbox held exactly `capacity` messages.
pub fn cuts_are_put()
    ensures { (c : CatalogData) (s : SettingsData) → CutsArePut c s }
{}
