//! Laws of spelling.

ghost use Rattle.rt_entry.specs.Spelling.{SpellingGoesOn, ToldGoesOn, VersionsGoOn};

/// Answers behind others are spelled in the version that the others leave, and leave their own; and
/// a slot's answers among both are those among the first and then those among the others.
pub fn spelling_goes_on()
    ensures spelled { SpellingGoesOn }
    ensures versions { VersionsGoOn }
    ensures told { ToldGoesOn }
{}
