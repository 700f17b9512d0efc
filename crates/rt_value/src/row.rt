use crate::{List, Value};

/// One cell per column of a table; `None` where the change does not give it.
pub type Cells = List<Option<Value>>;

/// The values of a row's key columns, in the order of the key.
#[derive(Debug, Drop)]
pub struct Key {
    pub values: List<Value>,
}

/// A row of a table: its key, and one value per column.
#[derive(Debug, Drop)]
pub struct Row {
    pub key: Key,
    pub values: List<Value>,
}
