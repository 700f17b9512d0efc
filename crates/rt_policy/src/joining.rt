ghost use Rattle.std.specs.Prelude.{◌≡◌};
ghost use Rattle.rt_value.specs.Lent.{value_of};
ghost use Rattle.rt_policy.specs.Joining.{none_of, truth_by, combined};

use crate::logic::{both, compare_by, either, truth_of};
use crate::{Comparison, Truth};
use rt_value::LentValue;

/// How the values of a list of expressions give one truth.
#[derive(Clone, Copy)]
pub enum Joining<'a> {
    /// The AND of their truths.
    And,
    /// The OR of their truths.
    Or,
    /// The OR of their equalities with a value.
    EqualTo(LentValue<'a>),
}

impl Joining<'_> {
    /// The truth that no value gives.
    pub fn of_none(self) -> Truth
        ensures { result ≡ none_of self.entry }
    {
        match self {
            Joining::And => Truth::True,
            Joining::Or | Joining::EqualTo(_) => Truth::False,
        }
    }

    /// The truth that is known with one more value.
    pub fn with(self, known: Truth, value: LentValue<'_>) -> Truth
        ensures { result ≡ combined self.entry known (truth_by self.entry (value_of value.entry)) }
    {
        match self {
            Joining::And => both(known, truth_of(value)),
            Joining::Or => either(known, truth_of(value)),
            Joining::EqualTo(side) => either(known, compare_by(Comparison::Equal, side, value)),
        }
    }
}
