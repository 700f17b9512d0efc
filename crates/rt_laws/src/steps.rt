ghost use Rattle.rt_catalog.specs.declared.catalog.Catalog.{Catalog as CatalogData};
ghost use Rattle.rt_entry.specs.declared.input.Settings.{Settings as SettingsData};
ghost use Rattle.rt_entry.specs.Headline.{CutsAreOwn, OthersAreUntouched, OutboxesAreWithin};
ghost use Rattle.rt_entry.specs.Headline.{PushKeepsTheRest};

/// A cut is made only by a push on the slot itself, at which its own outbox held as many messages
/// as it can; and after any list of steps no outbox holds more.
pub fn cuts_are_own()
    ensures own { (c : CatalogData) (s : SettingsData) → CutsAreOwn c s }
    ensures within { (c : CatalogData) (s : SettingsData) → OutboxesAreWithin c s }
{}

/// A step that doesn't push or pop a slot leaves what it was given, its place, what was popped and
/// its cuts.
pub fn others_are_untouched()
    ensures { (c : CatalogData) (s : SettingsData) → OthersAreUntouched c s }
{}

/// A push, also one that cuts, leaves the journal and all lanes.
pub fn push_keeps_the_rest()
    ensures { (c : CatalogData) (s : SettingsData) → PushKeepsTheRest c s }
{}
