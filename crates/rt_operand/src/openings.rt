ghost use Rattle.std.specs.Prelude.{◌≡◌};
ghost use Rattle.rt_policy.specs.Parts as parts;
ghost use Rattle.rt_operand.specs.Plain.{is_plain, is_select};

use rt_policy::part::{Goal, Part, Wanted};
use rt_policy::words::{Class, Sign, Word};

/// Whether a token where an operand begins is the first of a part by itself.
pub fn is_plain(class: Class) -> bool
    ensures { result ≡ is_plain class }
{
    !matches!(
        class,
        Class::Sign(Sign::Open) | Class::Word(Word::Not) | Class::Word(Word::Exists)
    )
}

/// Whether the next token is the word `select`.
pub fn is_select(class: Option<Class>) -> bool
    ensures { result ≡ is_select class }
{
    matches!(class, Some(Class::Word(Word::Select)))
}

/// The part behind EXISTS.
pub fn existing() -> Part
    ensures { result ≡ parts.existing }
{
    Part::Two(Wanted::Open, Wanted::Select, Goal::Selects)
}

/// The part behind a parenthesis and SELECT.
pub fn selecting() -> Part
    ensures { result ≡ parts.selecting }
{
    Part::Two(Wanted::Auth, Wanted::Dot, Goal::SelectedFunction)
}
