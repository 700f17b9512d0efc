ghost use Rattle.std.specs.Prelude.{◌≡◌, IfOk};
ghost use Rattle.rt_policy.specs.Parts as parts;
ghost use Rattle.rt_lexeme.specs.Look.{IsLook, lexeme_in};

use crate::casts::{
    after_cast, after_constant, after_length, after_minus, after_numbers, after_type_word,
    after_varying, at,
};
use crate::columns::{after_arrow, after_dot, after_function, after_name, after_select};
use crate::sources::{
    after_as, after_from, after_schema_dot, after_selected_dot, after_selected_name, after_source,
    after_table, after_table_name, selects,
};
use rt_lexeme::Look;
use rt_policy::part::{Goal, Moved, Part, Wanted};
use rt_policy::words::{Class, Sign, Word};
use std::alloc::{AllocError, Global};

/// Where the next token leads behind what is read of an operand.
fn goal_moved(alloc: Global, text: &str, goal: Goal, look: Look) -> Result<Moved, AllocError>
    requires { IsLook text.now look }
    ensures { IfOk result (λ m. m ≡
        parts.goal_moved goal look.class (lexeme_in text.now look)) }
{
    let class = look.class;
    match goal {
        Goal::Whole(expr) => Ok(Moved::Over(expr)),
        Goal::Constant(literal) => Ok(after_constant(literal, class)),
        Goal::Minus => after_minus(alloc, text, look),
        Goal::Cast(literal) => after_cast(alloc, text, literal, look),
        Goal::TypeWord(literal, head, name) => Ok(after_type_word(literal, head, name, class)),
        Goal::Varying(literal) => Ok(after_varying(literal, class)),
        Goal::Length(literal, name) => Ok(after_length(literal, name, class)),
        Goal::Lengthened(literal, name) => Ok(after_numbers(literal, name, class)),
        Goal::Named(auth, name) => Ok(after_name(auth, name, class)),
        Goal::Dotted(auth, name) => after_dot(alloc, text, auth, name, look),
        Goal::Called(function, qualifier) => after_function(alloc, function, qualifier, class),
        Goal::ClaimName(selects) => after_arrow(alloc, text, selects, look),
        Goal::SelectedFunction => Ok(after_select(class)),
        Goal::Selects => selects(alloc, text, look),
        Goal::SelectsName(name) => Ok(after_selected_name(name, class)),
        Goal::SelectsDotted(name) => after_selected_dot(alloc, text, name, look),
        Goal::Table(selected) => after_from(alloc, text, selected, look),
        Goal::TableNamed(selected, name) => after_table_name(alloc, text, selected, name, look),
        Goal::TableDotted(selected, name) => after_schema_dot(alloc, text, selected, name, look),
        Goal::Alias(selected, schema, table) => {
            after_table(alloc, text, selected, schema, table, look)
        }
        Goal::As(selected, schema, table) => after_as(alloc, text, selected, schema, table, look),
        Goal::Aliased(source) => Ok(after_source(source, class)),
    }
}

/// A goal behind the last class that had to come before it.
fn reached(goal: Goal) -> Moved
    ensures { result ≡ parts.reached goal }
{
    match goal {
        Goal::Whole(expr) => Moved::Done(expr),
        _ => at(goal),
    }
}

/// Whether the token is the one that has to come.
fn meets(wanted: Wanted, class: Option<Class>) -> bool
    ensures { result ≡ parts.meets wanted class }
{
    match wanted {
        Wanted::Number => matches!(class, Some(Class::Number)),
        Wanted::Open => matches!(class, Some(Class::Sign(Sign::Open))),
        Wanted::Close => matches!(class, Some(Class::Sign(Sign::Close))),
        Wanted::RightBracket => matches!(class, Some(Class::Sign(Sign::RightBracket))),
        Wanted::Arrow => matches!(class, Some(Class::Sign(Sign::Arrow))),
        Wanted::Dot => matches!(class, Some(Class::Sign(Sign::Dot))),
        Wanted::Auth => matches!(class, Some(Class::Word(Word::Auth))),
        Wanted::Select => matches!(class, Some(Class::Word(Word::Select))),
        Wanted::From => matches!(class, Some(Class::Word(Word::From))),
        Wanted::Time => matches!(class, Some(Class::Word(Word::Time))),
        Wanted::Zone => matches!(class, Some(Class::Word(Word::Zone))),
    }
}

fn if_met(met: bool, on: Moved) -> Moved
    ensures { result ≡ parts.if_met met on }
{
    if met { on } else { Moved::Bad }
}

/// Where the next token, or the end, leads in an operand of which this part is read. Fails for want
/// of memory alone.
pub fn part_moved(alloc: Global, text: &str, part: Part, look: Look) -> Result<Moved, AllocError>
    requires { IsLook text.now look }
    ensures { IfOk result (λ m. m ≡
        parts.part_moved part look.class (lexeme_in text.now look)) }
{
    let class = look.class;
    match part {
        Part::At(goal) => goal_moved(alloc, text, goal, look),
        Part::One(a, goal) => Ok(if_met(meets(a, class), reached(goal))),
        Part::Two(a, b, goal) => Ok(if_met(meets(a, class), Moved::More(Part::One(b, goal)))),
        Part::Three(a, b, c, goal) => {
            Ok(if_met(meets(a, class), Moved::More(Part::Two(b, c, goal))))
        }
    }
}
