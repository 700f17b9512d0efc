ghost use Rattle.rt_catalog.specs.declared.catalog.Catalog.{Catalog as CatalogData};
ghost use Rattle.rt_entry.specs.declared.input.Settings.{Settings as SettingsData};
ghost use Rattle.rt_entry.specs.Headline.{ServesAll};
ghost use Rattle.rt_laws.specs.Served.{UncutIsDue};

/// After any list of steps each slot was given, in order and each once, a prefix of what is due to
/// it with its cut openings shown short, and all of it once its worker is at rest.
pub fn serves_all()
    ensures { (c : CatalogData) (s : SettingsData) → ServesAll c s }
{}

/// Where no opening of a slot was cut, what is shown is all that is due.
pub fn uncut_is_due()
    ensures { UncutIsDue }
{}
