use rt_filter::{Test, Wanted};
use rt_value::{List, Text};

/// A binding as a client asks for it.
#[derive(Debug, Drop)]
pub struct Binding {
    /// The event's word.
    pub wanted: Text,
    /// The schema that the table is of.
    pub schema: Text,
    /// The table's name; none for every table of the schema.
    pub table: Option<Text>,
    /// The filters, as the client gave them: a list, or one text, or nothing.
    pub filters: List<Text>,
    /// Whether the client gave a list.
    pub listed: bool,
}

/// A binding with what it means on the catalogue. No table means every table of the schema.
#[derive(Debug, Drop)]
pub struct Subscribed {
    /// What the client asked for.
    pub binding: Binding,
    /// The events that are told.
    pub wanted: Wanted,
    /// The table's number in the catalogue.
    pub table: Option<u32>,
    /// What the filters test. All of them have to pass.
    pub tests: List<Test>,
}
