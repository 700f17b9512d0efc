use rt_json::Json;
use rt_value::{Cells, Edit, List, Text};

/// What a change does to rows of its table.
#[derive(Clone, Copy, Debug, Drop, PartialEq, Eq)]
pub enum Verb {
    /// A row is new.
    Insert,
    /// A row is another than before.
    Update,
    /// A row is gone.
    Delete,
    /// Empties the table, and is sent to nobody.
    Truncate,
}

/// A change of a table of the catalogue. The cells and the trees are one per column of the table.
#[derive(Drop)]
pub struct Change {
    /// The table's number in the catalogue.
    pub table: u32,
    /// What it does.
    pub verb: Verb,
    /// Whether the record names its primary key.
    pub has_key: bool,
    /// The bytes of the record's line.
    pub size: usize,
    /// The commit time as it is shown.
    pub moment: Option<Text>,
    /// The row as it is after the change, where the record gives it.
    pub new: Cells,
    /// What identifies the row as it was before.
    pub old: Cells,
    /// The values of `new` as a subscription is shown them: moments in UTC, a text of a JSON kind as
    /// the tree that it is a text of, and every other value as the record has it.
    pub new_trees: List<Option<Json>>,
    /// The values of `old` as a subscription is shown them.
    pub old_trees: List<Option<Json>>,
    /// What the change does to the rebuilt table.
    pub edit: Edit,
}

/// A record bound to the catalogue.
#[derive(Drop)]
pub enum Bound {
    /// The record changes a table.
    Change(Change),
    /// The record changes no table of the catalogue.
    Skip,
}
