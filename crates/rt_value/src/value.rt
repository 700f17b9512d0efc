use crate::Text;

/// How the values of a column are read and compared.
#[derive(Clone, Copy, Debug, PartialEq, Eq)]
pub enum Kind {
    /// A whole number of 16 bits.
    Int2,
    /// A whole number of 32 bits.
    Int4,
    /// A whole number of 64 bits.
    Int8,
    Text,
    /// A text, shown as `varchar`.
    Varchar,
    Bool,
    Uuid,
    /// A moment: `timestamp with time zone`.
    Timestamptz,
    /// `json` or `jsonb`, whose values are shown as trees and never judged.
    Json,
    /// A type whose values are passed on and never judged.
    Opaque,
}

/// A value of a column.
#[derive(Debug, Drop)]
pub enum Value {
    Null,
    /// A value of any of the three whole number kinds.
    Int(i64),
    /// A value of either text kind.
    Text(Text),
    Bool(bool),
    /// The number that the sixteen bytes write, first byte first.
    Uuid(u128),
    /// The microseconds from 1970-01-01 00:00:00 UTC, negative before it. `infinity` is the greatest
    /// number, `-infinity` the least.
    Moment(i64),
    /// A value of an opaque kind or of a JSON kind, of which nothing is kept.
    Opaque,
}
