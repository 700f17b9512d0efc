use rt_json::Json;
use rt_value::{List, Text};

/// What a record does.
#[derive(Clone, Copy, Debug, PartialEq, Eq)]
pub enum Action {
    Insert,
    Update,
    Delete,
    Truncate,
    Begin,
    Commit,
    Message,
}

/// A named value of a row, as the stream shows it.
#[derive(Drop)]
pub struct Field {
    pub name: Text,
    pub tree: Json,
}

/// One record of a stream.
#[derive(Drop)]
pub struct Record {
    pub action: Action,
    /// Of the table that the record speaks of. Empty where a record that speaks of none shows none.
    pub schema: Text,
    pub table: Text,
    /// The row as it is after the change.
    pub columns: List<Field>,
    /// What identifies the row as it was before the change.
    pub identity: List<Field>,
    /// The names of the primary key's columns.
    pub keys: List<Text>,
    /// When the transaction was committed, in UTC and whole milliseconds: `YYYY-MM-DDTHH:MM:SS.mmmZ`.
    pub moment: Option<Text>,
    /// The bytes of the record's line, without the LF at its end and a CR before it.
    pub size: usize,
}
