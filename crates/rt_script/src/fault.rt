use thiserror::Error;

/// Why a line is refused. The first that applies is told.
#[derive(Clone, Copy, Debug, Drop, PartialEq, Eq, Error)]
pub enum LineWhy {
    /// A setting after another line.
    #[error("late")]
    Late,
    /// No line of a script, or an argument out of its range.
    #[error("form")]
    Form,
    /// The text is no claims.
    #[error("claims")]
    Claims,
    /// An unknown or repeated name of a token.
    #[error("token")]
    Token,
    /// A tick before an earlier one.
    #[error("clock")]
    Clock,
    /// The text is no record of a stream.
    #[error("record")]
    Record,
    /// The record's primary key isn't the table's.
    #[error("key")]
    Key,
    /// The record has a column that the table has not.
    #[error("column")]
    Column,
    /// A value isn't of its column's kind, or a key column has none.
    #[error("value")]
    Value,
}

/// Why a script is not read.
#[derive(Clone, Copy, Debug, Drop, PartialEq, Eq, Error)]
pub enum ScriptFault {
    /// Memory ran out.
    #[error("out of memory")]
    NoMemory,
    /// The first line that is refused, counted from 1, and why.
    #[error("line {line}: {why}")]
    BadLine { line: u32, why: LineWhy },
}
