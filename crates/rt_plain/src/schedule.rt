ghost use Rattle.rt_plain.specs.AtOnce.{RoundsAreAtOnce};
ghost use Rattle.rt_plain.specs.Plain.{DueIsFree, PlainEnds, PlainGivesAll};
ghost use Rattle.rt_plain.specs.Plain.{WorkersAreFree, WorkersEndAlike};

/// A run that ends, of a script of inputs in the plain schedule, with workers, capacity, lane and
/// inlet of at least 1, takes the inputs in their order, cuts no slot, and gives each slot all that
/// is due to it.
pub fn plain_gives_all()
    ensures { PlainGivesAll }
{}

/// Such a script runs to its end exactly where each of its inputs finds room: the journal can take
/// one more, and the rows that a poll leaves are within their limit.
pub fn plain_ends()
    ensures { PlainEnds }
{}

/// What is due depends on the settings by the secret and the size of a record alone.
pub fn due_is_free()
    ensures { DueIsFree }
{}

/// Two such runs that end, of the same lines, with the same secret and size of a record and any
/// workers, give each slot the same items in the same order.
pub fn workers_are_free()
    ensures { WorkersAreFree }
{}

/// Where such a script runs to its end, so do the same lines with any other workers, capacity, lane
/// and inlet of at least 1, all else in the settings being equal, and each slot is given the same
/// items in the same order.
pub fn workers_end_alike()
    ensures { WorkersEndAlike }
{}

/// In a round the workers of all lanes may work at once: that leads to the world to which they lead
/// one after another, and each answers what it answers alone.
pub fn rounds_are_at_once()
    ensures { RoundsAreAtOnce }
{}
