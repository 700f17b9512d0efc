//! Laws of the catalogue, each on a function that does nothing.

ghost use Rattle.rt_catalog.specs.Names.{NamesAreReadable};
ghost use Rattle.rt_catalog.specs.Rings.{PathsAreComputed};
ghost use Rattle.rt_catalog.specs.Memberships.{UnderIsComputed};
ghost use Rattle.rt_catalog.specs.Sound.{ListsAreSound, RingsArePaths, MemberRingsArePaths};
ghost use Rattle.rt_catalog.specs.Kept.{GrantsAreNamed, MembershipsAreNamed, GrantsByName};
ghost use Rattle.rt_catalog.specs.Closing.{ClosedSelects, Selectable, ClosedApplies};
ghost use Rattle.rt_catalog.specs.Closing.{PoliciesAreClosed, ClosedIsWritten, TextsAreClosed};

/// The names of a catalogue that was read from a text are UTF-8: schema and name of each table, and
/// name and shown type of each of its columns.
pub fn names_are_readable()
    ensures { NamesAreReadable }
{}

/// What `through` computes are the paths.
pub fn paths_are_computed()
    ensures { PathsAreComputed }
{}

/// The rings that are refused are paths: from a policy's table to itself, and from a role to
/// itself.
pub fn rings_are_paths()
    ensures tables { RingsArePaths }
    ensures roles { MemberRingsArePaths }
{}

/// Of all lists that statements leave, none of which is refused: names are apart, numbers are
/// within their lists, rows stand once, no limit is passed, and no role is a member of itself.
pub fn lists_are_sound()
    ensures { ListsAreSound }
{}

/// Behind a GRANT stand the rows before and those that it names, and nothing else. By their names
/// the grant rows are the same, and as many are counted.
pub fn rows_are_kept()
    ensures grants { GrantsAreNamed }
    ensures memberships { MembershipsAreNamed }
    ensures by_name { GrantsByName }
{}

/// What `is_under` computes is that a role is under another.
pub fn under_is_computed()
    ensures { UnderIsComputed }
{}

/// A role may SELECT a column exactly where PUBLIC, or some role that it is under, was granted it.
pub fn members_select()
    ensures lists { ClosedSelects }
    ensures catalogue { Selectable }
{}

/// A policy applies to a role exactly where it is for PUBLIC or lists a role that it is under.
pub fn policies_apply()
    ensures lists { ClosedApplies }
    ensures catalogue { PoliciesAreClosed }
{}

/// Without memberships the closed lists are the written ones.
pub fn closed_is_written()
    ensures lists { ClosedIsWritten }
    ensures texts { TextsAreClosed }
{}
