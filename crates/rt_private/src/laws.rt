//! Laws of the definitions. Each is a function with an empty body.
ghost use Rattle.rt_private.specs.Laws.{NothingIsJudged, RowsDecide};

/// Without a messages table nothing is judged, so nothing is denied.
pub fn nothing_is_judged()
    ensures { NothingIsJudged }
{}

/// In a catalogue a right depends on the claims, with the role that they name, on the topic and on
/// the rows of the tables alone.
pub fn rows_decide()
    ensures { RowsDecide }
{}
