use rt_value::{Kind, List, Text};

/// A column as an expression may name it.
#[derive(Drop)]
pub struct ColumnView {
    pub name: Text,
    pub kind: Kind,
}

/// A table as an expression may name it, and whether it has a primary key.
#[derive(Drop)]
pub struct TableView {
    pub schema: Text,
    pub name: Text,
    pub columns: List<ColumnView>,
    pub keyed: bool,
}

/// What an expression may name: the policy's own table by its number, and all tables.
#[derive(Drop)]
pub struct Scope {
    pub table: u32,
    pub tables: List<TableView>,
}
