//! Laws of paths, each on a function that does nothing.

ghost use Rattle.rt_paths.specs.Laws.{MiddlesStay, RanksFall};

/// Closing over a number changes neither what leads to it nor where it leads, so a square can be
/// closed in place.
pub fn middles_stay()
    ensures { MiddlesStay }
{}

/// Where a number leads not to itself, it leads to fewer numbers than what leads to it.
pub fn ranks_fall()
    ensures { RanksFall }
{}
