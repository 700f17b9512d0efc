ghost use Rattle.std.specs.Prelude.{◌≡◌, Some, IfOk};
ghost use Rattle.rt_policy.specs.Parts as parts;
ghost use Rattle.rt_policy.specs.Words.{is_name};
ghost use Rattle.rt_lexeme.specs.Look.{IsLook, lexeme_in};

use crate::casts::at;
use rt_lexeme::{Look, content, digits, is_auth, name, word_next};
use rt_policy::part::{Function, Goal, Moved, Part, Wanted};
use rt_policy::words::{Class, Sign, Word};
use rt_policy::{Expr, Literal};
use rt_value::Text;
use std::alloc::{AllocError, Global};

fn begun_name(
    alloc: Global,
    text: &str,
    class: Class,
    look: Look,
) -> Result<Option<Part>, AllocError>
    requires look { IsLook text.now look }
    requires class { look.class ≡ Some class }
    ensures { IfOk result (λ p. p ≡
        parts.begun_name (is_name class) class (lexeme_in text.now look)) }
{
    match name(alloc, text, look)? {
        None => Ok(None),
        Some(name) => Ok(Some(Part::At(Goal::Named(is_auth(class), name)))),
    }
}

/// The part that the first token of an operand begins which is neither a group nor an EXISTS; none
/// where no operand begins with the token. Fails for want of memory alone.
pub fn begin(
    alloc: Global,
    text: &str,
    class: Class,
    look: Look,
) -> Result<Option<Part>, AllocError>
    requires look { IsLook text.now look }
    requires class { look.class ≡ Some class }
    ensures { IfOk result (λ p. p ≡ parts.begin class (lexeme_in text.now look)) }
{
    let goal = match class {
        Class::Text => Goal::Constant(Literal::Text(content(alloc, text, look)?)),
        Class::Number => Goal::Constant(Literal::Number {
            minus: false,
            digits: digits(alloc, text, look)?,
        }),
        Class::Word(Word::True) => Goal::Constant(Literal::Truth(true)),
        Class::Word(Word::False) => Goal::Constant(Literal::Truth(false)),
        Class::Word(Word::Null) => Goal::Constant(Literal::Null),
        Class::Sign(Sign::Minus) => Goal::Minus,
        _ => return begun_name(alloc, text, class, look),
    };
    Ok(Some(Part::At(goal)))
}

pub fn after_name(auth: bool, name: Text, class: Option<Class>) -> Moved
    ensures { result ≡ parts.after_name auth name class }
{
    match class {
        Some(Class::Sign(Sign::Dot)) => at(Goal::Dotted(auth, name)),
        _ => Moved::Over(Expr::Column {
            qualifier: None,
            name,
        }),
    }
}

fn function_of(word: Word) -> Option<Function>
    ensures { result ≡ parts.function_of word }
{
    match word {
        Word::Uid => Some(Function::Uid),
        Word::Role => Some(Function::Role),
        Word::Jwt => Some(Function::Jwt),
        _ => None,
    }
}

fn called(auth: bool, word: Word) -> Option<Function>
    ensures { result ≡ parts.called auth word }
{
    if auth { function_of(word) } else { None }
}

fn function_text(function: Function) -> &'static str
    ensures { result.now ≡ parts.function_text function }
{
    match function {
        Function::Uid => "uid",
        Function::Role => "role",
        Function::Jwt => "jwt",
    }
}

pub fn after_dot(
    alloc: Global,
    text: &str,
    auth: bool,
    qualifier: Text,
    look: Look,
) -> Result<Moved, AllocError>
    requires { IsLook text.now look }
    ensures { IfOk result (λ m. m ≡
        parts.after_dot auth qualifier look.class (lexeme_in text.now look)) }
{
    match called(auth, word_next(look.class)) {
        Some(function) => Ok(at(Goal::Called(function, qualifier))),
        None => match name(alloc, text, look)? {
            None => Ok(Moved::Bad),
            Some(name) => Ok(Moved::Done(Expr::Column {
                qualifier: Some(qualifier),
                name,
            })),
        },
    }
}

fn call_part(function: Function) -> Part
    ensures { result ≡ parts.call_part function }
{
    match function {
        Function::Uid => Part::One(Wanted::Close, Goal::Whole(Expr::Uid)),
        Function::Role => Part::One(Wanted::Close, Goal::Whole(Expr::Role)),
        Function::Jwt => Part::Two(Wanted::Close, Wanted::Arrow, Goal::ClaimName(false)),
    }
}

pub fn after_function(
    alloc: Global,
    function: Function,
    qualifier: Text,
    class: Option<Class>,
) -> Result<Moved, AllocError>
    ensures { IfOk result (λ m. m ≡ parts.after_function function qualifier class) }
{
    match class {
        Some(Class::Sign(Sign::Open)) => Ok(Moved::More(call_part(function))),
        _ => {
            let name = Text::new(String::from_str(alloc, function_text(function))?);
            Ok(Moved::Over(Expr::Column {
                qualifier: Some(qualifier),
                name,
            }))
        }
    }
}

fn claimed(selects: bool, expr: Expr) -> Moved
    ensures { result ≡ parts.claimed selects expr }
{
    if selects {
        Moved::More(Part::One(Wanted::Close, Goal::Whole(expr)))
    } else {
        Moved::Done(expr)
    }
}

pub fn after_arrow(
    alloc: Global,
    text: &str,
    selects: bool,
    look: Look,
) -> Result<Moved, AllocError>
    requires { IsLook text.now look }
    ensures { IfOk result (λ m. m ≡
        parts.after_arrow selects look.class (lexeme_in text.now look)) }
{
    match look.class {
        Some(Class::Text) => {
            let name = content(alloc, text, look)?;
            Ok(claimed(selects, Expr::Claim(name)))
        }
        _ => Ok(Moved::Bad),
    }
}

fn selected_part(function: Function) -> Part
    ensures { result ≡ parts.selected_part function }
{
    match function {
        Function::Uid => Part::Three(
            Wanted::Open,
            Wanted::Close,
            Wanted::Close,
            Goal::Whole(Expr::Uid),
        ),
        Function::Role => Part::Three(
            Wanted::Open,
            Wanted::Close,
            Wanted::Close,
            Goal::Whole(Expr::Role),
        ),
        Function::Jwt => Part::Three(
            Wanted::Open,
            Wanted::Close,
            Wanted::Arrow,
            Goal::ClaimName(true),
        ),
    }
}

/// Behind `(select auth .`
pub fn after_select(class: Option<Class>) -> Moved
    ensures { result ≡ parts.after_select class }
{
    match function_of(word_next(class)) {
        Some(function) => Moved::More(selected_part(function)),
        None => Moved::Bad,
    }
}
