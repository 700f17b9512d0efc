//! Laws of polls: the tables that they leave, and what is reported of them.

ghost use Rattle.rt_catalog.specs.declared.catalog.Catalog.{Catalog as CatalogData};
ghost use Rattle.rt_entry.specs.Bounds.{BoundsAreOfKinds, BoundsAreOfTables};
ghost use Rattle.rt_entry.specs.declared.input.Settings.{Settings as SettingsData};
ghost use Rattle.rt_entry.specs.Edited.{RowsAreOfTables, TablesAreEdited, TablesAreTheCatalogues};
ghost use Rattle.rt_entry.specs.Reports.{ReportsAreAudits};

/// The tables that a poll leaves are those before it with each of its changes' edits, one after
/// another, each of one table; the rows that are counted are theirs; and there are as many tables
/// as the catalogue has.
pub fn tables_are_edited()
    ensures edited { (c : CatalogData) (s : SettingsData) → TablesAreEdited c s }
    ensures rows { (c : CatalogData) (s : SettingsData) → RowsAreOfTables c s }
    ensures number { (c : CatalogData) (s : SettingsData) → TablesAreTheCatalogues c s }
{}

/// What is reported of a lane's entries, each by its fields alone, is the audit of the journal.
pub fn reports_are_audits()
    ensures { (c : CatalogData) (s : SettingsData) → ReportsAreAudits c s }
{}

/// A change that a record is bound to is of a table of the catalogue, and has a cell and a tree, or
/// none, for each of its columns.
pub fn bounds_are_of_tables()
    ensures { (c : CatalogData) → BoundsAreOfTables c }
{}

/// Each cell of such a change that is given is null or of its column's kind.
pub fn bounds_are_of_kinds()
    ensures { (c : CatalogData) → BoundsAreOfKinds c }
{}
