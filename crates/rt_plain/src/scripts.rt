ghost use Rattle.rt_plain.specs.Scripts.{ScriptsAreAllowed, ScriptsArePlain};

/// The steps that the run of a script makes keep the caller's conditions: slots and lanes are in
/// their ranges, ticks don't fall, and what is polled are changes that records are bound to. A
/// script whose schedule isn't written out is plain, so the laws of the plain schedule hold of it.
pub fn scripts_are_allowed()
    ensures steps { ScriptsAreAllowed }
    ensures plain { ScriptsArePlain }
{}
