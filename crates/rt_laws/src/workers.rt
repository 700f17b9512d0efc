//! Laws of the workers of lanes.

ghost use Rattle.rt_catalog.specs.declared.catalog.Catalog.{Catalog as CatalogData};
ghost use Rattle.rt_entry.specs.declared.input.Settings.{Settings as SettingsData};
ghost use Rattle.rt_laws.specs.Keeping.{OthersKeep, PushesTake, WorkersKeep};
ghost use Rattle.rt_laws.specs.Working.{WorkSpells, WorksAreAlone, WorksCommute};

/// A worker that takes an entry makes of each slot of its lane what the entry tells the slot,
/// spelled in the version that stands, and leaves the version that the answers leave.
pub fn work_spells()
    ensures { (c : CatalogData) (s : SettingsData) → WorkSpells c s }
{}

/// Workers may take their entries in whatever order, and what one answers doesn't depend on what
/// another lane's did.
pub fn works_are_apart()
    ensures order { (c : CatalogData) (s : SettingsData) → WorksCommute c s }
    ensures alone { (c : CatalogData) (s : SettingsData) → WorksAreAlone c s }
{}

/// After any steps, a worker that takes an entry changes what it keeps of a slot by what the entry
/// tells the slot, and that is what stands in the machine: the version, whether the slot's opening
/// is cut, and what is pending.
pub fn workers_keep()
    ensures { (c : CatalogData) (s : SettingsData) → WorkersKeep c s }
{}

/// A push puts the first item that is kept into the outbox; where the outbox is full for it,
/// nothing of its opening is kept, what is behind the opening's terminator stays, and without one
/// the opening is cut from then on.
pub fn pushes_take()
    ensures { (c : CatalogData) (s : SettingsData) → PushesTake c s }
{}

/// After any steps, no step but a push on the slot and the work of its lane changes what is kept of
/// the slot.
pub fn others_keep()
    ensures { (c : CatalogData) (s : SettingsData) → OthersKeep c s }
{}
