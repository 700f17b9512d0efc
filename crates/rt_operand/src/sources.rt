ghost use Rattle.std.specs.Prelude.{◌≡◌, Some, codes, IfOk};
ghost use Rattle.rt_policy.specs.Parts as parts;
ghost use Rattle.rt_lexeme.specs.Look.{IsLook, lexeme_in};

use crate::casts::at;
use rt_lexeme::{Look, digits, name};
use rt_policy::part::{Goal, Moved, Part, Source, Wanted};
use rt_policy::words::{Class, Sign, Word};
use rt_policy::{Expr, Selected};
use rt_value::Text;
use std::alloc::{AllocError, Global};

fn from(selected: Selected) -> Moved
    ensures { result ≡ parts.from selected }
{
    Moved::More(Part::One(Wanted::From, Goal::Table(selected)))
}

/// Behind `exists (select`.
pub fn selects(alloc: Global, text: &str, look: Look) -> Result<Moved, AllocError>
    requires { IsLook text.now look }
    ensures { IfOk result (λ m. m ≡ parts.selects look.class (lexeme_in text.now look)) }
{
    match look.class {
        Some(Class::Number) => {
            let digits = digits(alloc, text, look)?;
            Ok(if digits.get() == "1" {
                from(Selected::One)
            } else {
                Moved::Bad
            })
        }
        Some(Class::Sign(Sign::Star)) => Ok(from(Selected::All)),
        _ => match name(alloc, text, look)? {
            None => Ok(Moved::Bad),
            Some(name) => Ok(at(Goal::SelectsName(name))),
        },
    }
}

pub fn after_selected_name(name: Text, class: Option<Class>) -> Moved
    ensures { result ≡ parts.after_selected_name name class }
{
    match class {
        Some(Class::Sign(Sign::Dot)) => at(Goal::SelectsDotted(name)),
        Some(Class::Word(Word::From)) => at(Goal::Table(Selected::Column {
            qualifier: None,
            name,
        })),
        _ => Moved::Bad,
    }
}

pub fn after_selected_dot(
    alloc: Global,
    text: &str,
    qualifier: Text,
    look: Look,
) -> Result<Moved, AllocError>
    requires { IsLook text.now look }
    ensures { IfOk result (λ m. m ≡
        parts.after_selected_dot qualifier look.class (lexeme_in text.now look)) }
{
    match name(alloc, text, look)? {
        None => Ok(Moved::Bad),
        Some(name) => Ok(from(Selected::Column {
            qualifier: Some(qualifier),
            name,
        })),
    }
}

pub fn after_from(
    alloc: Global,
    text: &str,
    selected: Selected,
    look: Look,
) -> Result<Moved, AllocError>
    requires { IsLook text.now look }
    ensures { IfOk result (λ m. m ≡
        parts.after_from selected look.class (lexeme_in text.now look)) }
{
    match name(alloc, text, look)? {
        None => Ok(Moved::Bad),
        Some(name) => Ok(at(Goal::TableNamed(selected, name))),
    }
}

pub fn after_schema_dot(
    alloc: Global,
    text: &str,
    selected: Selected,
    schema: Text,
    look: Look,
) -> Result<Moved, AllocError>
    requires { IsLook text.now look }
    ensures { IfOk result (λ m. m ≡
        parts.after_schema_dot selected schema look.class (lexeme_in text.now look)) }
{
    match name(alloc, text, look)? {
        None => Ok(Moved::Bad),
        Some(name) => Ok(at(Goal::Alias(selected, schema, name))),
    }
}

fn source_of(selected: Selected, schema: Text, table: Text, alias: Option<Text>) -> Source
    ensures { result ≡ parts.source selected schema table alias }
{
    Source {
        selected,
        schema,
        table,
        alias,
    }
}

/// An EXISTS on a source without WHERE.
fn exists_all(source: Source) -> Expr
    ensures { result ≡ parts.exists_of source None }
{
    let Source {
        selected,
        schema,
        table,
        alias,
    } = source;
    Expr::Exists {
        selected,
        schema,
        table,
        alias,
        condition: None,
    }
}

pub fn after_source(source: Source, class: Option<Class>) -> Moved
    ensures { result ≡ parts.after_source source class }
{
    match class {
        Some(Class::Word(Word::Where)) => Moved::Condition(source),
        Some(Class::Sign(Sign::Close)) => Moved::Done(exists_all(source)),
        _ => Moved::Bad,
    }
}

fn aliased(selected: Selected, schema: Text, table: Text, alias: Text) -> Moved
    ensures { result ≡ parts.at (Goal.Aliased (parts.source selected schema table (Some alias))) }
{
    at(Goal::Aliased(source_of(selected, schema, table, Some(alias))))
}

pub fn after_table(
    alloc: Global,
    text: &str,
    selected: Selected,
    schema: Text,
    table: Text,
    look: Look,
) -> Result<Moved, AllocError>
    requires { IsLook text.now look }
    ensures { IfOk result (λ m. m ≡
        parts.after_table selected schema table look.class (lexeme_in text.now look)) }
{
    match look.class {
        Some(Class::Word(Word::As)) => Ok(at(Goal::As(selected, schema, table))),
        _ => match name(alloc, text, look)? {
            Some(name) => Ok(aliased(selected, schema, table, name)),
            None => {
                let source = source_of(selected, schema, table, None);
                Ok(after_source(source, look.class))
            }
        },
    }
}

pub fn after_table_name(
    alloc: Global,
    text: &str,
    selected: Selected,
    name: Text,
    look: Look,
) -> Result<Moved, AllocError>
    requires { IsLook text.now look }
    ensures { IfOk result (λ m. m ≡
        parts.after_table_name selected name look.class (lexeme_in text.now look)) }
{
    match look.class {
        Some(Class::Sign(Sign::Dot)) => Ok(at(Goal::TableDotted(selected, name))),
        _ => {
            let schema = Text::new(String::from_str(alloc, "public")?);
            after_table(alloc, text, selected, schema, name, look)
        }
    }
}

/// Behind `as`, which is itself the alias where no name follows.
pub fn after_as(
    alloc: Global,
    text: &str,
    selected: Selected,
    schema: Text,
    table: Text,
    look: Look,
) -> Result<Moved, AllocError>
    requires { IsLook text.now look }
    ensures { IfOk result (λ m. m ≡
        parts.after_as selected schema table look.class (lexeme_in text.now look)) }
{
    match name(alloc, text, look)? {
        Some(name) => Ok(aliased(selected, schema, table, name)),
        None => {
            let alias = Text::new(String::from_str(alloc, "as")?);
            let source = source_of(selected, schema, table, Some(alias));
            Ok(after_source(source, look.class))
        }
    }
}
