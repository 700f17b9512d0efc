ghost use Rattle.rt_catalog.specs.declared.catalog.Catalog.{Catalog as CatalogData};
ghost use Rattle.rt_entry.specs.declared.input.Settings.{Settings as SettingsData};
ghost use Rattle.rt_laws.specs.Openings.{OpeningsAreWhole, StoppedIsShut};

/// What a slot, of those below 256, is told goes opening by opening: each begins with its mark and
/// ends with its terminator, and nothing is said between them. What is left open is what the story
/// has open, and behind a stop that is nothing.
pub fn openings_are_whole()
    ensures whole { (c : CatalogData) (s : SettingsData) → OpeningsAreWhole c s }
    ensures stopped { (c : CatalogData) (s : SettingsData) → StoppedIsShut c s }
{}
