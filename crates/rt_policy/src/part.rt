use crate::{Expr, Literal, Selected};
use rt_value::Text;

/// The functions of `auth`.
#[derive(Clone, Copy)]
pub enum Function {
    Uid,
    Role,
    Jwt,
}

/// What has to come before anything else.
#[derive(Clone, Copy)]
pub enum Wanted {
    Number,
    Open,
    Close,
    RightBracket,
    Arrow,
    Dot,
    Auth,
    Select,
    From,
    Time,
    Zone,
}

/// The first words of types of several words, and every other.
#[derive(Clone, Copy)]
pub enum Head {
    Timestamp,
    Double,
    Character,
    Other,
}

/// What an EXISTS reads.
#[derive(Drop)]
pub struct Source {
    pub selected: Selected,
    pub schema: Text,
    pub table: Text,
    pub alias: Option<Text>,
}

/// What is read of an operand in which no other stands.
#[derive(Drop)]
pub enum Goal {
    /// The whole operand.
    Whole(Expr),
    /// A constant, which `::` may follow.
    Constant(Literal),
    /// Behind a minus.
    Minus,
    /// Behind `::`.
    Cast(Literal),
    /// Behind the first word of a type.
    TypeWord(Literal, Head, Text),
    /// Behind `character varying`.
    Varying(Literal),
    /// Behind a type's first number.
    Length(Literal, Text),
    /// Behind a type's numbers.
    Lengthened(Literal, Text),
    /// A column or a qualifier, and whether it is the word `auth`.
    Named(bool, Text),
    /// Behind a qualifier's dot.
    Dotted(bool, Text),
    /// A column of a table `auth`, or a function.
    Called(Function, Text),
    /// Behind `->>`, and whether `(select` stands before.
    ClaimName(bool),
    /// Behind `(select auth .`
    SelectedFunction,
    /// Behind `exists (select`.
    Selects,
    /// A column or a qualifier behind that.
    SelectsName(Text),
    /// Behind the dot of that qualifier.
    SelectsDotted(Text),
    /// Behind FROM.
    Table(Selected),
    /// A table or a schema.
    TableNamed(Selected, Text),
    /// Behind a schema's dot.
    TableDotted(Selected, Text),
    /// Behind a table.
    Alias(Selected, Text, Text),
    /// Behind `as`, which may itself be the alias.
    As(Selected, Text, Text),
    /// Behind an alias.
    Aliased(Source),
}

/// What is read of an operand, and the classes that have to come before anything else.
#[derive(Drop)]
pub enum Part {
    At(Goal),
    One(Wanted, Goal),
    Two(Wanted, Wanted, Goal),
    Three(Wanted, Wanted, Wanted, Goal),
}

/// Where a token leads in an operand.
#[derive(Drop)]
pub enum Moved {
    More(Part),
    /// The operand ends with the token.
    Done(Expr),
    /// The operand ends before the token.
    Over(Expr),
    /// The token is the WHERE of an EXISTS.
    Condition(Source),
    Bad,
}
