ghost use Rattle.std.specs.Prelude.{◌≡◌, IfOk};
ghost use Rattle.rt_policy.specs.Parts as parts;
ghost use Rattle.rt_lexeme.specs.Look.{IsLook, lexeme_in};

use rt_lexeme::{Look, digits, name, word_next};
use rt_policy::part::{Goal, Head, Moved, Part, Wanted};
use rt_policy::words::{Class, Sign, Word};
use rt_policy::{Expr, Literal, TypeName};
use rt_value::Text;
use std::alloc::{AllocError, Global};

pub fn at(goal: Goal) -> Moved
    ensures { result ≡ parts.at goal }
{
    Moved::More(Part::At(goal))
}

pub fn after_constant(literal: Literal, class: Option<Class>) -> Moved
    ensures { result ≡ parts.after_constant literal class }
{
    match class {
        Some(Class::Sign(Sign::Colons)) => at(Goal::Cast(literal)),
        _ => Moved::Over(Expr::Literal(literal)),
    }
}

pub fn after_minus(alloc: Global, text: &str, look: Look) -> Result<Moved, AllocError>
    requires { IsLook text.now look }
    ensures { IfOk result (λ m. m ≡ parts.after_minus look.class (lexeme_in text.now look)) }
{
    match look.class {
        Some(Class::Number) => {
            let digits = digits(alloc, text, look)?;
            Ok(at(Goal::Constant(Literal::Number {
                minus: true,
                digits,
            })))
        }
        _ => Ok(Moved::Bad),
    }
}

fn head_of(word: Word) -> Head
    ensures { result ≡ parts.head_of word }
{
    match word {
        Word::Timestamp => Head::Timestamp,
        Word::Double => Head::Double,
        Word::Character => Head::Character,
        _ => Head::Other,
    }
}

pub fn after_cast(
    alloc: Global,
    text: &str,
    literal: Literal,
    look: Look,
) -> Result<Moved, AllocError>
    requires { IsLook text.now look }
    ensures { IfOk result (λ m. m ≡
        parts.after_cast literal look.class (lexeme_in text.now look)) }
{
    match name(alloc, text, look)? {
        None => Ok(Moved::Bad),
        Some(name) => {
            let head = head_of(word_next(look.class));
            Ok(at(Goal::TypeWord(literal, head, name)))
        }
    }
}

fn cast_to_name(literal: Literal, name: Text, array: bool) -> Expr
    ensures { result ≡ parts.cast_to_name literal name array }
{
    Expr::Cast(literal, TypeName::Named { name, array })
}

pub fn after_numbers(literal: Literal, name: Text, class: Option<Class>) -> Moved
    ensures { result ≡ parts.after_numbers literal name class }
{
    match class {
        Some(Class::Sign(Sign::LeftBracket)) => {
            let whole = Goal::Whole(cast_to_name(literal, name, true));
            Moved::More(Part::One(Wanted::RightBracket, whole))
        }
        _ => Moved::Over(cast_to_name(literal, name, false)),
    }
}

fn after_name_of_type(literal: Literal, name: Text, class: Option<Class>) -> Moved
    ensures { result ≡ parts.after_name_of_type literal name class }
{
    match class {
        Some(Class::Sign(Sign::Open)) => {
            Moved::More(Part::One(Wanted::Number, Goal::Length(literal, name)))
        }
        _ => after_numbers(literal, name, class),
    }
}

fn zoned(literal: Literal, name: TypeName) -> Moved
    ensures { result ≡ parts.zoned literal name }
{
    let whole = Goal::Whole(Expr::Cast(literal, name));
    Moved::More(Part::Two(Wanted::Time, Wanted::Zone, whole))
}

fn after_timestamp(literal: Literal, name: Text, class: Option<Class>) -> Moved
    ensures { result ≡ parts.after_timestamp literal name class }
{
    match class {
        Some(Class::Word(Word::With)) => zoned(literal, TypeName::TimestampWithTimeZone),
        Some(Class::Word(Word::Without)) => zoned(literal, TypeName::TimestampWithoutTimeZone),
        _ => after_name_of_type(literal, name, class),
    }
}

fn after_double(literal: Literal, name: Text, class: Option<Class>) -> Moved
    ensures { result ≡ parts.after_double literal name class }
{
    match class {
        Some(Class::Word(Word::Precision)) => {
            Moved::Done(Expr::Cast(literal, TypeName::DoublePrecision))
        }
        _ => after_name_of_type(literal, name, class),
    }
}

fn after_character(literal: Literal, name: Text, class: Option<Class>) -> Moved
    ensures { result ≡ parts.after_character literal name class }
{
    match class {
        Some(Class::Word(Word::Varying)) => at(Goal::Varying(literal)),
        _ => after_name_of_type(literal, name, class),
    }
}

pub fn after_type_word(literal: Literal, head: Head, name: Text, class: Option<Class>) -> Moved
    ensures { result ≡ parts.after_type_word literal head name class }
{
    match head {
        Head::Timestamp => after_timestamp(literal, name, class),
        Head::Double => after_double(literal, name, class),
        Head::Character => after_character(literal, name, class),
        Head::Other => after_name_of_type(literal, name, class),
    }
}

pub fn after_varying(literal: Literal, class: Option<Class>) -> Moved
    ensures { result ≡ parts.after_varying literal class }
{
    let cast = Expr::Cast(literal, TypeName::CharacterVarying);
    match class {
        Some(Class::Sign(Sign::Open)) => {
            Moved::More(Part::Two(Wanted::Number, Wanted::Close, Goal::Whole(cast)))
        }
        _ => Moved::Over(cast),
    }
}

pub fn after_length(literal: Literal, name: Text, class: Option<Class>) -> Moved
    ensures { result ≡ parts.after_length literal name class }
{
    match class {
        Some(Class::Sign(Sign::Comma)) => {
            let goal = Goal::Lengthened(literal, name);
            Moved::More(Part::Two(Wanted::Number, Wanted::Close, goal))
        }
        Some(Class::Sign(Sign::Close)) => at(Goal::Lengthened(literal, name)),
        _ => Moved::Bad,
    }
}
