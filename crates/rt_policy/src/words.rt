use crate::Comparison;

/// The words that mean something in an expression. Those up to `Where` are no names.
#[derive(Clone, Copy)]
pub enum Word {
    And,
    Or,
    Not,
    In,
    Is,
    Null,
    True,
    False,
    Exists,
    Select,
    From,
    Where,
    As,
    Auth,
    Uid,
    Role,
    Jwt,
    Unknown,
    Timestamp,
    With,
    Without,
    Time,
    Zone,
    Double,
    Precision,
    Character,
    Varying,
    Other,
}

/// The signs of an expression that compare nothing.
#[derive(Clone, Copy)]
pub enum Sign {
    Open,
    Close,
    Comma,
    Dot,
    Colons,
    Minus,
    Star,
    LeftBracket,
    RightBracket,
    Arrow,
    Other,
}

/// What a token is to an expression, without the name or the content that it keeps.
#[derive(Clone, Copy)]
pub enum Class {
    Word(Word),
    Quoted,
    Text,
    Number,
    Compared(Comparison),
    Sign(Sign),
}
