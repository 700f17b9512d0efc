//! Two small runs, computed from the definitions.
ghost use Rattle.rt_cluster.specs.Examples.{DroppedTrackIsReplaced, RemovalComesFirst};

/// A node drops another one, which tracks anew meanwhile: the new track stays.
pub fn dropped_track_is_replaced()
    ensures { DroppedTrackIsReplaced }
{}

/// A removal that comes before its track.
pub fn removal_comes_first()
    ensures { RemovalComesFirst }
{}
