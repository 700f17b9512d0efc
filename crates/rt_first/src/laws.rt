//! Laws of the first form. Each is a function with an empty body.
ghost use Rattle.rt_first.specs.First.{GivenIsDue, InputsAreOne};

/// A script of the first form has inputs, and what is printed of all that is due by them is the three messages of its slot.
pub fn given_is_due()
    ensures { GivenIsDue }
{}

/// The texts of a script have one list of inputs at most.
pub fn inputs_are_one()
    ensures { InputsAreOne }
{}
