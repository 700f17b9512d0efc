use crate::{Comparison, Tested};
use rt_value::{List, Text};
use sqlite_items::Boxed;

/// A constant without its cast.
#[derive(Drop)]
pub enum Literal {
    Text(Text),
    /// Digits, and whether a minus stands before them.
    Number { minus: bool, digits: Text },
    Truth(bool),
    Null,
}

/// The name of a type. `varchar` and `timestamp` alone are names like any other.
#[derive(Drop)]
pub enum TypeName {
    TimestampWithTimeZone,
    TimestampWithoutTimeZone,
    DoublePrecision,
    CharacterVarying,
    /// A name, with brackets behind it for an array.
    Named { name: Text, array: bool },
}

/// What an EXISTS selects.
#[derive(Drop)]
pub enum Selected {
    One,
    All,
    /// A column with its qualifier.
    Column { qualifier: Option<Text>, name: Text },
}

/// An expression as it is written. Names without quotes are in lower case.
#[derive(Drop)]
pub enum Expr {
    Literal(Literal),
    Cast(Literal, TypeName),
    /// `auth.uid()`
    Uid,
    /// `auth.role()`
    Role,
    /// `auth.jwt() ->> 'name'`
    Claim(Text),
    /// A column with its qualifier.
    Column {
        qualifier: Option<Text>,
        name: Text,
    },
    /// An expression in parentheses.
    Group(Boxed<Expr>),
    Compare(Comparison, Boxed<Expr>, Boxed<Expr>),
    /// IN, or NOT IN where it is negated.
    OneOf {
        negated: bool,
        side: Boxed<Expr>,
        items: List<Expr>,
    },
    Not(Boxed<Expr>),
    /// Two or more.
    And(List<Expr>),
    /// Two or more.
    Or(List<Expr>),
    /// IS, or IS NOT where it is negated.
    Is {
        negated: bool,
        tested: Tested,
        side: Boxed<Expr>,
    },
    /// A table with its alias, and what stands behind WHERE.
    Exists {
        selected: Selected,
        schema: Text,
        table: Text,
        alias: Option<Text>,
        condition: Option<Boxed<Expr>>,
    },
}
