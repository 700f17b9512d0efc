//! Laws of the lanes.

ghost use Rattle.rt_catalog.specs.declared.catalog.Catalog.{Catalog as CatalogData};
ghost use Rattle.rt_entry.specs.declared.input.Settings.{Settings as SettingsData};
ghost use Rattle.rt_entry.specs.Fan.{EntriesGive, LaneFans};
ghost use Rattle.rt_entry.specs.Lanes.{EntriesAnswer, EntriesGrow, EntriesStay};
ghost use Rattle.rt_entry.specs.Lanes.{MarksGrow, MarksStay, StopsAreMarked};

/// The central law: what the entry of a mark gives is what the mark gives, and what the entries of
/// an input give a lane's slots is what the input answers them. Whatever inputs come later, those
/// entries stand at their place.
pub fn entries_give()
    ensures give { (c : CatalogData) (s : SettingsData) → EntriesGive c s }
    ensures answer { (c : CatalogData) (s : SettingsData) → EntriesAnswer c s }
    ensures stay { (c : CatalogData) (s : SettingsData) → EntriesStay c s }
{}

/// The lane's part of what an entry gives is the fan-out over the lane's channels alone.
pub fn lanes_fan_out()
    ensures { (c : CatalogData) (s : SettingsData) → LaneFans c s }
{}

/// A lane's marks of a journal begin those of each longer one.
pub fn marks_stay()
    ensures { (c : CatalogData) (s : SettingsData) → MarksStay c s }
{}

/// An input more puts its marks behind a lane's, and their entries behind the lane's: nothing else
/// changes.
pub fn lanes_grow()
    ensures marks { (c : CatalogData) (s : SettingsData) → MarksGrow c s }
    ensures entries { (c : CatalogData) (s : SettingsData) → EntriesGrow c s }
{}

/// A lane has as many stops as the journal.
pub fn stops_are_marked()
    ensures { (c : CatalogData) (s : SettingsData) → StopsAreMarked c s }
{}
